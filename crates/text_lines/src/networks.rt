//! Networks, each in its one spelling, and lists of them.
ghost use Rattle.std.specs.Prelude.{◌≡◌, ◌≤◌};
ghost use Rattle.resolver_settings.specs.Net.{width_of};
ghost use Rattle.text_lines.specs.Fields.{Gives};
ghost use Rattle.text_lines.specs.Networks.{prefix_of, net_of, each_net, nets_of};
ghost use Rattle.text_lines.specs.Pieces.{pieces};

use crate::addresses::ip;
use crate::numbers::number;
use crate::pieces::cut;
use crate::words::LineError;
use resolver_settings::{IpNet, Nets};
use std::alloc::Global;
use std::net::IpAddr;

/// How many bits an address of this family has.
fn width(ip: IpAddr) -> u64
    ensures value { result ≡ width_of ip }
    ensures small { result ≤ 128 }
{
    match ip {
        IpAddr::V4(_) => 32,
        IpAddr::V6(_) => 128,
    }
}

/// The network of an address and the word of a length.
fn prefix_of(ip: IpAddr, word: &[u8]) -> Result<IpNet, LineError>
    ensures { Gives result (prefix_of ip word.now) }
{
    let Some(prefix) = number(word, width(ip)) else {
        return Err(LineError::Refused);
    };
    match IpNet::new(ip, prefix as u8) {
        Ok(net) => Ok(net),
        Err(_) => Err(LineError::Refused),
    }
}

/// The network that a word spells.
fn net(alloc: Global, word: &[u8]) -> Result<IpNet, LineError>
    ensures { Gives result (net_of word.now) }
{
    let (address, rest) = cut(word, b'/');
    let Some(rest) = rest else {
        return Err(LineError::Refused);
    };
    let (length, more) = cut(rest, b'/');
    if let Some(_more) = more {
        return Err(LineError::Refused);
    }
    let ip = ip(alloc, address)?;
    prefix_of(ip, length)
}

/// The networks that all items of a list spell.
fn each_net(alloc: Global, word: &[u8]) -> Result<Nets, LineError>
    ensures { Gives result (each_net (pieces 44 word.now)) }
{
    let mut nets = Nets::empty(alloc);
    let mut rest = word;
    'items: loop {
        let (item, after) = cut(rest, b',');
        let network = net(alloc, item)?;
        nets.push(network)?;
        let Some(after) = after else {
            return Ok(nets);
        };
        rest = after;
    }
}

/// The networks that a word spells; a dash spells none.
pub fn nets(alloc: Global, word: &[u8]) -> Result<Nets, LineError>
    ensures { Gives result (nets_of word.now) }
{
    if word == b"-".as_slice() {
        return Ok(Nets::empty(alloc));
    }
    each_net(alloc, word)
}
