//! A resolver's text, as it stands in `/etc/resolv.conf` (resolv.conf(5)).
//!
//! A line says `nameserver` and an address, `domain` and a name, `search` and names, or `options` and
//! words as `ndots:2`. A `#` or a `;` begins a comment. Whatever else a text has is passed over.
ghost use Rattle.std.specs.Prelude.{◌<◌, ◌^◌, length};
ghost use Rattle.resolver_settings.specs.ResolverText.{conf_of, Reads, IsOnly};
ghost use Rattle.resolver_settings.specs.ConfError.{Gives};
ghost use Rattle.resolver_settings.specs.TextLines.{lines_of};

use crate::conf_error::ConfError;
use crate::config::ResolverConfig;
use crate::options::ResolverOpts;
use crate::search_list::{domain_of, last_list, search_names};
use crate::text_options::options_of;
use crate::text_servers::{addresses_of, servers_at};
use std::alloc::Global;
use std::net::IpAddr;

/// The configuration and the options that a resolver's text and the name of its host say.
///
/// Each server is reached over UDP, and then over TCP. The number in a `BadSearchName` counts the
/// words of the search list from 1, `--` among them.
pub fn parse_resolv_conf(
    alloc: Global,
    text: &[u8],
    host: &str,
) -> Result<(ResolverConfig, ResolverOpts), ConfError>
    requires { length text.now < 2 ^ 32 }
    ensures read { Reads text.now host.now result }
    ensures only { IsOnly text.now host.now result }
{
    let addresses = addresses_of(alloc, text)?;
    with_servers(alloc, text, host, &addresses)
}

/// The configuration and the options of a text that gives these addresses of servers.
fn with_servers(
    alloc: Global,
    text: &[u8],
    host: &str,
    addresses: &[IpAddr],
) -> Result<(ResolverConfig, ResolverOpts), ConfError>
    requires { length text.now < 2 ^ 32 }
    ensures { Gives result (conf_of addresses.now (lines_of text.now) host.now) }
{
    if addresses.is_empty() {
        return Err(ConfError::NoNameServers);
    }
    let servers = servers_at(alloc, addresses)?;
    let search = search_names(alloc, last_list(text))?;
    let domain = domain_of(alloc, text, host)?;
    let config = ResolverConfig::from_parts(domain, search, servers);
    let options = options_of(alloc, text)?;
    Ok((config, options))
}
