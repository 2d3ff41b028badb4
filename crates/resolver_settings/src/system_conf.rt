//! A resolver's text that a source holds.
ghost use Rattle.std.specs.Prelude.{◌≡◌, ◌≤◌, Err, length};
ghost use Rattle.dns_core.specs.Faults.{Rose};
ghost use Rattle.resolver_settings.specs.SystemConf.{ReadsSource, ReadsShort};

use crate::conf_error::ConfError;
use crate::config::ResolverConfig;
use crate::options::ResolverOpts;
use crate::resolver_text::parse_resolv_conf;
use dns_core::{ReadError, Source, read_all};
use std::alloc::Global;

/// The largest text that is read, in bytes.
const MOST: usize = 1_048_576;

/// The configuration and the options that all of a source's text and the name of its host say, as
/// `parse_resolv_conf` reads them.
pub fn read_system_conf<S: Source>(
    alloc: Global,
    source: &mut S,
    host: &str,
) -> Result<(ResolverConfig, ResolverOpts), ConfError>
    ensures read { ReadsSource (S.left source.old) (S.left source.new) host.now result }
    ensures fault { result ≡ Err ConfError.ReadFault → Rose (S.faults source.old) (S.faults source.new) }
    ensures later { S.faults source.old ≤ S.faults source.new }
{
    match read_all(alloc, source, MOST + 1) {
        Err(ReadError::Failed) => Err(ConfError::ReadFault),
        Err(ReadError::NoMemory) => Err(ConfError::NoMemory),
        Ok(text) => read_text(alloc, &text, host),
    }
}

/// Reads a text of which all, or one byte too many, was taken.
fn read_text(
    alloc: Global,
    text: &[u8],
    host: &str,
) -> Result<(ResolverConfig, ResolverOpts), ConfError>
    requires { length text.now ≤ 1048577 }
    ensures { ReadsShort text.now host.now result }
{
    if text.len() > MOST {
        return Err(ConfError::TooLong);
    }
    parse_resolv_conf(alloc, text, host)
}
