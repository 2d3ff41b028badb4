//! Servers in the order of how fast they answered.
ghost use Rattle.std.specs.Prelude.{◌≡◌, OnOk, OnErr};
ghost use Rattle.std.specs.List.Sorted.{IsPermutation, IsNonDecreasingBy, IsStableByKey};
ghost use Rattle.std.specs.Ordering.{nat_cmp};
ghost use Rattle.pool_rules.specs.Statistics.{delay_of};

use dns_core::NoMemory;
use server_core::ServerTable;
use std::alloc::Global;

/// The delay of the server of a number at a moment.
fn delay_of(table: &ServerTable, number: u32, now: u64) -> u128
    ensures { result ≡ delay_of table.now now number }
{
    if table.is_live(number) {
        table.get(number).decayed_srtt(now)
    } else {
        0
    }
}

/// Puts servers of a table into the order of their delays at a moment. Each delay is read once, and
/// servers of equal delays stay in their order.
pub fn sort_servers_by_query_statistics(
    _alloc: Global,
    servers: &mut Vec<u32>,
    table: &ServerTable,
    now: u64,
) -> Result<(), NoMemory>
    ensures permutation { IsPermutation servers.old.items servers.new.items }
    ensures sorted { OnOk result (IsNonDecreasingBy (delay_of table.now now) servers.new.items) }
    ensures stable { IsStableByKey (delay_of table.now now) nat_cmp servers.old.items servers.new.items }
    ensures err { OnErr result (servers.new.items ≡ servers.old.items) }
{
    servers.sort_by_cached_key(|number| delay_of(table, *number, now))?;
    Ok(())
}
