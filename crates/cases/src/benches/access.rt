//! Addresses against the recommended networks.

use crate::benches::failure::Failure;
use dns_core::NoMemory;
use resolver_settings::{AccessControlSet, AccessControlSetBuilder, recommended_server_filters};
use std::alloc::Global;
use std::net::{IpAddr, Ipv4Addr, Ipv6Addr};

/// The recommended networks, denied so often.
fn denying(alloc: Global, sets: u32) -> Result<AccessControlSet, NoMemory> {
    let nets = recommended_server_filters(alloc)?;
    let mut builder = AccessControlSetBuilder::new(alloc, "servers");
    for _ in 0..sets {
        builder = builder.deny(alloc, &nets)?;
    }
    Ok(builder.build())
}

/// How many of 5,000 IPv4 addresses, spread over the whole space, are denied.
fn denied_ipv4(set: &AccessControlSet) -> usize {
    (0..5_000_u32)
        .map(|i| Ipv4Addr::from_bits(i * 858_993))
        .filter(|ip| set.denied(IpAddr::V4(*ip)))
        .count()
}

/// How many of 5,000 IPv6 addresses, with first segments from 548 to 65535, are denied.
fn denied_ipv6(set: &AccessControlSet) -> usize {
    (0..5_000_u16)
        .map(|i| Ipv6Addr::from_segments([i * 13 + 548, 0, 0, 0, 0, 0, 0, 0]))
        .filter(|ip| set.denied(IpAddr::V6(*ip)))
        .count()
}

/// How many of the addresses of both families are denied, gone over so often.
pub fn count_denied(alloc: Global, sets: u32, times: u32) -> Result<(usize, usize), Failure> {
    let set = denying(alloc, sets)?;
    let mut four: usize = 0;
    let mut six: usize = 0;
    for _ in 0..times {
        four = four.saturating_add(denied_ipv4(&set));
        six = six.saturating_add(denied_ipv6(&set));
    }
    Ok((four, six))
}
