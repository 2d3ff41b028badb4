//! Addresses as text. The form of IPv6 that ends in dots (RFC 4291 section 2.2, form 3) is neither
//! read nor printed.
ghost use Rattle.std.specs.Prelude.{◌≡◌, IfOk};
ghost use Rattle.resolver_settings.specs.AddressText.{ReadsAddress, address_text};

use dns_core::{NoMemory, Text};
use std::alloc::Global;
use std::net::IpAddr;

/// The address that a word spells. Groups of IPv6 may have leading zeros and letters of either case;
/// a zone index is no part of an address.
pub(crate) fn address_in(word: &[u8]) -> Option<IpAddr>
    ensures { ReadsAddress word.now result }
{
    let Ok(ip) = IpAddr::parse_ascii(word) else {
        return None;
    };
    if ip.is_ipv6() && word.contains(&b'.') {
        return None;
    }
    Some(ip)
}

/// The text of an address, in its canonical form (RFC 5952 section 4).
pub(crate) fn text_of_address(alloc: Global, ip: IpAddr) -> Result<Text, NoMemory>
    ensures { IfOk result (λ text. text ≡ address_text ip) }
{
    let text = match ip {
        IpAddr::V4(ip) => format!(in alloc; "{ip}")?,
        IpAddr::V6(ip) => {
            let groups = ip.hex_groups();
            format!(in alloc; "{groups}")?
        }
    };
    Ok(Text::new(text))
}
