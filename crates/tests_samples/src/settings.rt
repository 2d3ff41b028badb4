//! Settings, and servers that are reached in the plain ways.

use crate::messages::ip;
use dns_core::NoMemory;
use resolver_settings::{
    AccessControlSet, AccessControlSetBuilder, IpNet, NameServerConfig, ResolverOpts,
};
use std::alloc::Global;

pub fn options(alloc: Global) -> Result<ResolverOpts, NoMemory> {
    ResolverOpts::standard(alloc)
}

/// A server that is reached over UDP and TCP.
pub fn plain(alloc: Global) -> Result<NameServerConfig, NoMemory> {
    NameServerConfig::udp_and_tcp(alloc, ip(1))
}

/// Denies these networks, but allows those.
pub fn filter(
    alloc: Global,
    denied: &[IpNet],
    allowed: &[IpNet],
) -> Result<AccessControlSet, NoMemory> {
    let builder = AccessControlSetBuilder::new(alloc, "filter")
        .deny(alloc, denied)?
        .allow(alloc, allowed)?;
    Ok(builder.build())
}
