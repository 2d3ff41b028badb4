//! How pools are made, of servers that are there or of configurations.
ghost use Rattle.std.specs.Prelude.{◌≡◌, ◌≢◌, ◌+◌, ◌++◌, ◌∷◌, [], length, All, IfOk, OnOk, OnErr};
ghost use Rattle.std.specs.List.{range_with_len};
ghost use Rattle.server_core.specs.NewServer.{new_server};
ghost use Rattle.server_core.specs.Servers.{IsFirstDelay};
ghost use Rattle.server_pool.specs.NewPool.{delay_at, with_servers, HasSomeOf};
ghost use Rattle.server_pool.specs.Pool.{IsPoolOf, IsLive};

use crate::pool::NameServerPool;
use crate::pool_shared::PoolShared;
use dns_core::{Delays, NoMemory};
use resolver_settings::NameServerConfig;
use server_core::{NameServer, PoolContext};
use std::alloc::Global;

/// The delay of a place: they are taken in turn, round and round.
fn delay_at(first_delays: &Delays, place: usize) -> u8
    requires some { first_delays.now ≢ [] }
    requires fit { All IsFirstDelay first_delays.now }
    ensures is { result ≡ delay_at first_delays.now place }
    ensures first { IsFirstDelay result }
{
    let delays = first_delays.items();
    delays[place % delays.len()]
}

/// Adds the server of a configuration, which starts with a delay.
fn add_one(
    alloc: Global,
    config: NameServerConfig,
    first_delay: u8,
    shared: &mut PoolShared,
) -> Result<u32, NoMemory>
    requires { IsFirstDelay first_delay }
    ensures number { IfOk result (λ number. number ≡ length shared.old.table + 1) }
    ensures ok { OnOk result (shared.new ≡ record shared.old { table = shared.old.table ++ new_server [] config shared.old.context.options.server_ordering_strategy first_delay ∷ [] }) }
    ensures err { OnErr result (shared.new ≡ shared.old) }
{
    let options = shared.context().options();
    let server = NameServer::new(alloc, Vec::new(alloc), config, options, first_delay)?;
    let number = shared.add(alloc, server)?;
    Ok(number)
}

/// Adds the servers of configurations in their order, and tells their numbers. Those that were added
/// before memory ran out stay.
fn add_all(
    alloc: Global,
    servers: Vec<NameServerConfig>,
    first_delays: &Delays,
    shared: &mut PoolShared,
) -> Result<Vec<u32>, NoMemory>
    requires some { first_delays.now ≢ [] }
    requires fit { All IsFirstDelay first_delays.now }
    ensures numbers { IfOk result (λ numbers. numbers.items ≡ range_with_len (length shared.old.table + 1) (length servers.items)) }
    ensures ok { OnOk result (shared.new ≡ with_servers first_delays.now servers.items shared.old) }
    ensures err { OnErr result (HasSomeOf first_delays.now servers.items shared.old shared.new) }
{
    let mut numbers = Vec::with_capacity(alloc, servers.len())?;
    for config in servers {
        let first_delay = delay_at(first_delays, numbers.len());
        let number = add_one(alloc, config, first_delay, shared)?;
        numbers.push(number)?;
    }
    Ok(numbers)
}

impl NameServerPool {
    /// A pool of servers that are there, with a number of its own.
    pub fn from_nameservers(
        _alloc: Global,
        servers: Vec<u32>,
        shared: &mut PoolShared,
    ) -> Result<Self, NoMemory>
        ensures pool { IfOk result (λ pool. IsPoolOf (shared.old.pools + 1) servers.items pool) }
        ensures ok { OnOk result (shared.new ≡ record shared.old { pools = shared.old.pools + 1 }) }
        ensures err { OnErr result (shared.new ≡ shared.old) }
    {
        let number = shared.number_pool()?;
        Ok(NameServerPool::numbered(number, servers))
    }

    /// A pool of new servers, in the order of their configurations. They take the first delays in turn,
    /// round and round. Servers that were added before memory ran out stay, and no pool has them.
    pub fn from_config(
        alloc: Global,
        servers: Vec<NameServerConfig>,
        first_delays: &Delays,
        shared: &mut PoolShared,
    ) -> Result<Self, NoMemory>
        requires some { first_delays.now ≢ [] }
        requires fit { All IsFirstDelay first_delays.now }
        ensures pool { IfOk result (λ pool. IsPoolOf (shared.old.pools + 1) (range_with_len (length shared.old.table + 1) (length servers.items)) pool) }
        ensures live { IfOk result (IsLive shared.new.table) }
        ensures ok { OnOk result (shared.new ≡ record (with_servers first_delays.now servers.items shared.old) { pools = shared.old.pools + 1 }) }
        ensures err { OnErr result (HasSomeOf first_delays.now servers.items shared.old shared.new) }
    {
        let numbers = add_all(alloc, servers, first_delays, shared)?;
        NameServerPool::from_nameservers(alloc, numbers, shared)
    }

    /// The settings of all pools.
    pub fn context<'a>(&self, shared: &'a PoolShared) -> &'a PoolContext
        ensures { result.now ≡ shared.now.context }
    {
        shared.context()
    }
}
