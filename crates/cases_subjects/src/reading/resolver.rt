//! The text of a resolver, below a line with the name of its host; and search domains as text.

use crate::lines::first_line;
use crate::reading::owned::{Lines, lines_of};
use crate::values::{put_ip, put_name};
use dns_core::{
    ConnectionConfig, Items, MemorySource, Name, NameError, Names, NoMemory, Numbers,
    ProtocolConfig,
};
use resolver_settings::{
    ConfError, NameServerConfig, ResolverConfig, ResolverOpts, parse_search_domains,
    read_system_conf,
};
use std::alloc::Global;
use std::fmt::Write;
use std::net::IpAddr;

/// What a resolver's text says.
#[derive(Drop)]
struct Said {
    config: ResolverConfig,
    options: ResolverOpts,
}

/// The connections to a server.
fn connections(server: &NameServerConfig) -> &[ConnectionConfig] {
    server.connections.items()
}

/// The name by which a server of this address is known over TLS.
fn put_server_name(alloc: Global, out: &mut String, ip: IpAddr) -> Result<(), NoMemory> {
    let server = NameServerConfig::opportunistic_encryption(alloc, ip)?;
    match connections(&server).get(2).map(|c| &c.protocol) {
        Some(ProtocolConfig::Tls { server_name }) => out.push_str(server_name.items())?,
        _ => out.push_str("(no name)")?,
    }
    Ok(())
}

fn put_server(alloc: Global, out: &mut String, server: &NameServerConfig) -> Result<(), NoMemory> {
    out.push_str("server")?;
    put_ip(out, server.ip)?;
    let count = connections(server).len();
    write!(out, " connections {count} named ")?;
    put_server_name(alloc, out, server.ip)?;
    out.push_str("\n")?;
    Ok(())
}

fn put_domain(alloc: Global, out: &mut String, domain: Option<&Name>) -> Result<(), NoMemory> {
    out.push_str("domain")?;
    if let Some(name) = domain {
        put_name(alloc, out, name)?;
    }
    out.push_str("\n")?;
    Ok(())
}

fn put_names(alloc: Global, out: &mut String, names: &[Name]) -> Result<(), NoMemory> {
    for name in names {
        put_name(alloc, out, name)?;
    }
    out.push_str("\n")?;
    Ok(())
}

impl Lines for Said {
    fn lines(&self, alloc: Global) -> Result<String, NoMemory> {
        let mut out = String::new(alloc);
        put_domain(alloc, &mut out, self.config.domain())?;
        out.push_str("search")?;
        put_names(alloc, &mut out, self.config.search())?;
        for server in self.config.name_servers() {
            put_server(alloc, &mut out, server)?;
        }
        let (ndots, timeout) = (self.options.ndots, self.options.timeout);
        let (attempts, edns0) = (self.options.attempts, self.options.edns0);
        writeln!(
            out,
            "ndots {ndots} timeout {timeout} attempts {attempts} edns0 {edns0}"
        )?;
        Ok(out)
    }
}

/// The name of an error, and its text.
fn fault_text(alloc: Global, error: ConfError) -> Result<String, NoMemory> {
    let name = match error {
        ConfError::BadSearchName(number) => {
            return Ok(format!(in alloc; "BadSearchName {number}\n{error}\n")?);
        }
        ConfError::NoNameServers => "NoNameServers",
        ConfError::ReadFault => "ReadFault",
        ConfError::TooLong => "TooLong",
        ConfError::NoMemory => return Err(NoMemory),
    };
    Ok(format!(in alloc; "{name}\n{error}\n")?)
}

/// A source of a text whose call of this number fails; none has the number 0.
fn source_of(alloc: Global, text: &[u8], call: u64) -> Result<MemorySource, NoMemory> {
    let held = Items::new(Vec::from_slice(alloc, text)?);
    let mut failing = Numbers::empty(alloc);
    failing.push(call)?;
    Ok(MemorySource::new(alloc, held, failing))
}

/// What the text of a source says for a host.
fn source_answer(
    alloc: Global,
    source: Result<MemorySource, NoMemory>,
    host: &str,
) -> Result<String, NoMemory> {
    let mut source = source?;
    match read_system_conf(alloc, &mut source, host) {
        Ok((config, options)) => lines_of(alloc, Said { config, options }),
        Err(error) => fault_text(alloc, error),
    }
}

/// What a resolver's text says. Its first line is `host` with a name behind it, or without one, and where a
/// call of its source fails, ` failing <call>` behind the name.
pub fn answer(alloc: Global, given: &[u8]) -> Result<String, NoMemory> {
    let (line, text) = first_line(given);
    let named = line.strip_prefix("host ").unwrap_or("");
    let (host, call) = named.split_once(" failing ").unwrap_or((named, ""));
    let source = source_of(alloc, text, call.parse().unwrap_or(0));
    source_answer(alloc, source, host)
}

fn domains_text(alloc: Global, read: Result<Names, NameError>) -> Result<String, NoMemory> {
    let mut out = String::new(alloc);
    match read {
        Ok(names) => {
            out.push_str("names")?;
            put_names(alloc, &mut out, names.items())?;
        }
        Err(NameError::NoMemory) => return Err(NoMemory),
        Err(error) => writeln!(out, "{error:?}")?,
    }
    Ok(out)
}

/// The names of search domains.
pub fn search_domains(alloc: Global, given: &[u8]) -> Result<String, NoMemory> {
    let raw = std::str::from_utf8(given).unwrap_or("(no text)");
    domains_text(alloc, parse_search_domains(alloc, raw))
}
