//! Lines that ask of networks, and an answer to each.
//!
//! `holds <network> <address>`; `denied <address>`, after lines `allow <network>`, `deny <network>` and
//! `recommended`, which denies the 22 networks of special purpose.

use dns_core::NoMemory;
use resolver_settings::{AccessControlSetBuilder, IpNet, recommended_server_filters};
use std::alloc::Global;
use std::net::IpAddr;

/// The networks that lines named so far.
#[derive(Drop)]
struct Named {
    allowed: Vec<IpNet>,
    denied: Vec<IpNet>,
}

/// A network as text, if it is one.
fn net_in(word: &str) -> Option<IpNet> {
    let (addr, prefix) = word.split_once('/')?;
    let addr: IpAddr = addr.parse().ok()?;
    let prefix: u8 = prefix.parse().ok()?;
    IpNet::new(addr, prefix).ok()
}

fn put(to: &mut Vec<IpNet>, word: &str) -> Result<&'static str, NoMemory> {
    match net_in(word) {
        Some(net) => {
            to.push(net)?;
            Ok("noted")
        }
        None => Ok("no network"),
    }
}

fn put_recommended(alloc: Global, to: &mut Vec<IpNet>) -> Result<&'static str, NoMemory> {
    for net in recommended_server_filters(alloc)? {
        to.push(net)?;
    }
    Ok("noted")
}

/// Whether a network holds an address.
fn holds(words: &str) -> &'static str {
    let (net, ip) = words.split_once(' ').unwrap_or((words, ""));
    let Some(net) = net_in(net) else {
        return "no network";
    };
    let ip: Option<IpAddr> = ip.parse().ok();
    match ip {
        Some(ip) => { if net.contains(ip) { "yes" } else { "no" } }
        None => "no address",
    }
}

/// Whether an address is denied where these networks are allowed and denied.
fn denied(alloc: Global, named: &Named, word: &str) -> Result<&'static str, NoMemory> {
    let ip: Option<IpAddr> = word.parse().ok();
    let Some(ip) = ip else {
        return Ok("no address");
    };
    let set = AccessControlSetBuilder::new(alloc, "cases")
        .allow(alloc, named.allowed.as_slice())?
        .deny(alloc, named.denied.as_slice())?
        .build();
    Ok(if set.denied(ip) { "yes" } else { "no" })
}

fn line_answer(alloc: Global, named: &mut Named, line: &str) -> Result<&'static str, NoMemory> {
    let (word, rest) = line.split_once(' ').unwrap_or((line, ""));
    match word {
        "allow" => put(&mut named.allowed, rest),
        "deny" => put(&mut named.denied, rest),
        "recommended" => put_recommended(alloc, &mut named.denied),
        "holds" => Ok(holds(rest)),
        "denied" => denied(alloc, named, rest),
        _ => Ok("no such word"),
    }
}

/// A line that answers each line.
pub fn answer(alloc: Global, given: &[u8]) -> Result<String, NoMemory> {
    let mut named = Named {
        allowed: Vec::new(alloc),
        denied: Vec::new(alloc),
    };
    let mut out = String::new(alloc);
    for line in std::str::from_utf8(given).unwrap_or("").lines() {
        out.push_str(line_answer(alloc, &mut named, line)?)?;
        out.push_str("\n")?;
    }
    Ok(out)
}
