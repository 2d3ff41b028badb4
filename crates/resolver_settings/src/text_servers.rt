//! The servers that the lines of a text give.
ghost use Rattle.std.specs.Prelude.{◌≡◌, IfOk};
ghost use Rattle.resolver_settings.specs.Directives.{server_word};
ghost use Rattle.resolver_settings.specs.TextLines.{lines_of};
ghost use Rattle.resolver_settings.specs.TextServers.{GivesAddress, Addresses, server_words, servers_at};

use crate::address_text::address_in;
use crate::directives::server_word;
use crate::name_server::NameServerConfig;
use crate::text_lines::{Lines, Words};
use dns_core::NoMemory;
use std::alloc::Global;
use std::net::IpAddr;

/// The address that a line gives.
fn server_address(line: &Words) -> Option<IpAddr>
    ensures { GivesAddress (server_word line.now) result }
{
    address_in(server_word(line)?)
}

/// The addresses of the servers in their order, repeated ones too.
pub(crate) fn addresses_of(alloc: Global, text: &[u8]) -> Result<Vec<IpAddr>, NoMemory>
    ensures { IfOk result (λ addresses. Addresses (server_words (lines_of text.now)) addresses.items) }
{
    let mut addresses = Vec::new(alloc);
    let mut lines = Lines::of(text);
    'lines: while let Some(line) = lines.next() {
        match server_address(&line) {
            None => {}
            Some(address) => addresses.push(address)?,
        }
    }
    Ok(addresses)
}

/// A server at each address.
pub(crate) fn servers_at(
    alloc: Global,
    addresses: &[IpAddr],
) -> Result<Vec<NameServerConfig>, NoMemory>
    ensures { IfOk result (λ servers. servers.items ≡ servers_at addresses.now) }
{
    let mut servers = Vec::with_capacity(alloc, addresses.len())?;
    for address in addresses {
        servers.push(NameServerConfig::udp_and_tcp(alloc, *address)?)?;
    }
    Ok(servers)
}
