//! The networks in which no server of a recursor can be (RFC 6890).
ghost use Rattle.std.specs.Prelude.{◌≡◌, IfOk};
ghost use Rattle.resolver_settings.specs.Recommended.{special_ipv4_nets, special_ipv6_nets, special_nets};

use crate::net::{IpNet, ipv4_net, ipv6_net};
use dns_core::NoMemory;
use std::alloc::Global;

fn ipv4_nets() -> [IpNet; 13]
    ensures { result ≡ special_ipv4_nets }
{
    [
        ipv4_net([127, 0, 0, 0], 8),
        ipv4_net([0, 0, 0, 0], 8),
        ipv4_net([255, 255, 255, 255], 32),
        ipv4_net([10, 0, 0, 0], 8),
        ipv4_net([172, 16, 0, 0], 12),
        ipv4_net([192, 168, 0, 0], 16),
        ipv4_net([100, 64, 0, 0], 10),
        ipv4_net([169, 254, 0, 0], 16),
        ipv4_net([192, 0, 0, 0], 24),
        ipv4_net([192, 0, 2, 0], 24),
        ipv4_net([198, 51, 100, 0], 24),
        ipv4_net([203, 0, 113, 0], 24),
        ipv4_net([240, 0, 0, 0], 4),
    ]
}

fn ipv6_nets() -> [IpNet; 9]
    ensures { result ≡ special_ipv6_nets }
{
    [
        ipv6_net([0, 0, 0, 0, 0, 0, 0, 1], 128),
        ipv6_net([0, 0, 0, 0, 0, 0, 0, 0], 128),
        ipv6_net([0x100, 0, 0, 0, 0, 0, 0, 0], 64),
        ipv6_net([0x2001, 0xdb8, 0, 0, 0, 0, 0, 0], 32),
        ipv6_net([0x3fff, 0, 0, 0, 0, 0, 0, 0], 20),
        ipv6_net([0x5f00, 0, 0, 0, 0, 0, 0, 0], 16),
        ipv6_net([0xfc00, 0, 0, 0, 0, 0, 0, 0], 7),
        ipv6_net([0xfe80, 0, 0, 0, 0, 0, 0, 0], 64),
        ipv6_net([0xff00, 0, 0, 0, 0, 0, 0, 0], 8),
    ]
}

/// The 22 networks of special purpose in which no server of a recursor can be. It fails for want
/// of memory alone.
pub fn recommended_server_filters(alloc: Global) -> Result<Vec<IpNet>, NoMemory>
    ensures { IfOk result (λ nets. nets.items ≡ special_nets) }
{
    let mut nets = Vec::from_array(alloc, ipv4_nets())?;
    nets.extend_from_slice(&ipv6_nets())?;
    Ok(nets)
}
