//! Addresses of both families, each in its one spelling.
ghost use Rattle.std.specs.Prelude.{◌≡◌, IfOk};
ghost use Rattle.std.specs.Str.{bytes_eq};
ghost use Rattle.std.specs.Net.Addr.{ipv6_segments, IsIpv6Addr};
ghost use Rattle.std.specs.Net.Text.{hex_groups_text};
ghost use Rattle.text_lines.specs.Addresses.{ReadsIpv6, ipv6_of, ip_of};
ghost use Rattle.text_lines.specs.Fields.{Gives};

use crate::numbers::ipv4;
use crate::words::LineError;
use dns_core::NoMemory;
use std::alloc::Global;
use std::net::{IpAddr, Ipv6Addr};

/// The word is the text of this address, which has eight groups of 16 bits.
fn is_text_of(alloc: Global, ip: Ipv6Addr, word: &[u8]) -> Result<bool, NoMemory>
    ensures fits { IsIpv6Addr ip }
    ensures same { IfOk result (λ same. same ≡ bytes_eq (hex_groups_text (ipv6_segments ip)) word.now) }
{
    let groups = ip.hex_groups();
    let text = format!(in alloc; "{groups}")?;
    Ok(text.as_bytes() == word)
}

/// The IPv6 address that a word spells.
pub fn ipv6(alloc: Global, word: &[u8]) -> Result<Ipv6Addr, LineError>
    ensures value { Gives result (ipv6_of word.now) }
    ensures spelled { ReadsIpv6 result word.now }
{
    match Ipv6Addr::parse_ascii(word) {
        Ok(ip) => {
            let same = is_text_of(alloc, ip, word)?;
            if same {
                Ok(ip)
            } else {
                Err(LineError::Refused)
            }
        }
        Err(_) => Err(LineError::Refused),
    }
}

/// The address that a word spells.
pub fn ip(alloc: Global, word: &[u8]) -> Result<IpAddr, LineError>
    ensures { Gives result (ip_of word.now) }
{
    if let Some(address) = ipv4(word) {
        return Ok(IpAddr::V4(address));
    }
    let address = ipv6(alloc, word)?;
    Ok(IpAddr::V6(address))
}
