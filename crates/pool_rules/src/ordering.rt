//! In which order the servers of a pool are asked.
ghost use Rattle.std.specs.Prelude.{◌≡◌, ◌+◌, ◌%◌, ◌<◌, OnOk, OnErr, vec_len};
ghost use Rattle.pool_rules.specs.Ordering.{IsByDelay, IsOrdered, from_place, next_turn, place_of_turn, concurrency_of, turn_after};

use crate::statistics::sort_servers_by_query_statistics;
use dns_core::NoMemory;
use resolver_settings::{ResolverOpts, ServerOrderingStrategy};
use server_core::ServerTable;
use std::alloc::Global;

/// How many servers are asked side by side: one at least.
pub fn concurrency_of(options: &ResolverOpts) -> usize
    ensures { result ≡ concurrency_of options.now }
{
    options.num_concurrent_reqs.max(1)
}

/// The place so many after another, round a list.
fn place_after(place: usize, step: usize, count: usize) -> usize
    requires place { place < count }
    requires step { step < count }
    ensures { result ≡ (place + step) % count }
{
    let rest = count - place;
    if step < rest {
        place + step
    } else {
        step - rest
    }
}

/// Begins with the server whose turn it is, where not all are asked at once.
fn take_turns(servers: &mut Vec<u32>, turn: &mut usize, concurrency: usize)
    ensures order { servers.new.items ≡ from_place (place_of_turn concurrency turn.old (vec_len servers.old)) servers.old.items }
    ensures turn { turn.new ≡ turn_after concurrency turn.old (vec_len servers.old) }
{
    let count = servers.len();
    if concurrency < count {
        let place = *turn % count;
        servers.rotate_left(place);
        *turn = place_after(place, concurrency, count);
    }
}

fn by_delay(
    alloc: Global,
    servers: &mut Vec<u32>,
    table: &ServerTable,
    now: u64,
) -> Result<(), NoMemory>
    ensures ok { OnOk result (IsByDelay table.now now servers.old.items servers.new.items) }
    ensures err { OnErr result (servers.new.items ≡ servers.old.items) }
{
    sort_servers_by_query_statistics(alloc, servers, table, now)
}

/// Puts the servers of a pool in the order in which a lookup that begins at this moment asks them.
/// Where they are asked in turn, `turn` tells with which one this lookup begins, and then with which
/// the next one does. Where memory runs out, nothing has changed.
pub fn ordered(
    alloc: Global,
    servers: &mut Vec<u32>,
    turn: &mut usize,
    table: &ServerTable,
    options: &ResolverOpts,
    now: u64,
) -> Result<(), NoMemory>
    ensures order { OnOk result (IsOrdered options.now table.now now turn.old servers.old.items servers.new.items) }
    ensures turn { OnOk result (turn.new ≡ next_turn options.now turn.old (vec_len servers.old)) }
    ensures err { OnErr result ((servers.new.items ≡ servers.old.items) × (turn.new ≡ turn.old)) }
{
    match options.server_ordering_strategy {
        ServerOrderingStrategy::QueryStatistics => by_delay(alloc, servers, table, now),
        ServerOrderingStrategy::UserProvidedOrder => Ok(()),
        ServerOrderingStrategy::RoundRobin => {
            take_turns(servers, turn, concurrency_of(options));
            Ok(())
        }
    }
}
