//! Settings that tests are made of.

use dns_core::{NameError, Names, NoMemory, RecordType};
use resolver_settings::{NameServerConfig, ResolverConfig, TtlBounds, TtlConfig};
use std::alloc::Global;
use tests_samples::{domain, ip, plain};

/// Bounds of TTLs from 1 on, and for A others from 5 on.
pub fn bounds(alloc: Global) -> Result<TtlConfig, NoMemory> {
    let general = TtlBounds {
        positive_min: 1,
        positive_max: 2,
        negative_min: 3,
        negative_max: 4,
    };
    let own = TtlBounds {
        positive_min: 5,
        positive_max: 6,
        negative_min: 7,
        negative_max: 8,
    };
    TtlConfig::new(alloc, general).with_bounds(alloc, RecordType::A, own)
}

pub fn encrypted(alloc: Global) -> Result<NameServerConfig, NoMemory> {
    NameServerConfig::opportunistic_encryption(alloc, ip(1))
}

fn servers(alloc: Global) -> Result<Vec<NameServerConfig>, NoMemory> {
    let mut servers = Vec::new(alloc);
    servers.push(plain(alloc)?)?;
    Ok(servers)
}

fn put_names(alloc: Global, to: &mut ResolverConfig) -> Result<(), NameError> {
    to.add_search(alloc, domain(alloc, "net.")?)?;
    to.add_search(alloc, domain(alloc, "com.")?)?;
    to.set_domain(domain(alloc, "org.")?);
    Ok(())
}

/// One server, the search domains `net.` and `com.`, and the domain `org.`.
pub fn resolver_config(alloc: Global) -> Result<ResolverConfig, NameError> {
    let servers = servers(alloc)?;
    let mut config = ResolverConfig::from_parts(None, Names::empty(alloc), servers);
    put_names(alloc, &mut config)?;
    Ok(config)
}
