//! Pools, the order of their servers, and what is left of an answer, where there is memory.

use crate::pool_samples::{Call, Course};
use crate::server_samples::unopened;
use crate::sights::Seen;
use dns_core::{Message, NetError, NoMemory};
use resolver_settings::{AccessControlSet, IpNet, ResolverOpts, ServerOrderingStrategy};
use server_core::{NameServer, ServerTable};
use server_pool::{filtered, ordered, sort_servers_by_query_statistics};
use std::alloc::Global;
use std::net::{IpAddr, Ipv4Addr};
use std::test::Fail;
use tests_samples::{comes_to, filter, is_wanted, message, options, query, runs};

/// A copy of a pool has the number of the pool, and another pool has another one.
static NUMBERED: [(u64, Call, Seen); 3] = [
    (0, Call::Configure, Seen::Pool(0, 1)),
    (0, Call::Group(&[]), Seen::Pool(1, 0)),
    (0, Call::Copy(0), Seen::Pool(0, 1)),
];

static ADDED: [(u64, Call, Seen); 3] = [
    (0, Call::Add, Seen::Server(1)),
    (0, Call::Add, Seen::Server(2)),
    (0, Call::CountServers, Seen::Servers(2)),
];

#[test]
fn pools_and_servers_are_numbered(rt: HostRuntime) -> Result<(), Fail> {
    let alloc = rt.alloc();
    runs(alloc, Course::new(alloc), &NUMBERED)?;
    runs(alloc, Course::new(alloc), &ADDED)
}

/// A server of which a connection took so many microseconds the last time.
fn server(alloc: Global, took: u64) -> Result<NameServer, NoMemory> {
    let mut server = unopened(alloc)?;
    server.record_cancelled(took, 1_000_000);
    Ok(server)
}

fn put_servers(
    alloc: Global,
    table: &mut ServerTable,
    numbers: &mut Vec<u32>,
) -> Result<(), NoMemory> {
    for took in [30_000, 10_000, 20_000] {
        numbers.push(table.add(alloc, server(alloc, took)?)?)?;
    }
    Ok(())
}

/// The places of servers in a list of their numbers, which rise by one from the least.
fn places(numbers: &[u32]) -> Option<[u32; 3]> {
    let least = *numbers.iter().min()?;
    match numbers {
        [a, b, c] => Some([
            a.saturating_sub(least),
            b.saturating_sub(least),
            c.saturating_sub(least),
        ]),
        _ => None,
    }
}

fn options_by(alloc: Global, strategy: ServerOrderingStrategy) -> Result<ResolverOpts, NoMemory> {
    let mut options = options(alloc)?;
    options.server_ordering_strategy = strategy;
    options.num_concurrent_reqs = 2;
    Ok(options)
}

/// The order of servers by a strategy where two are asked at once and the second has its turn, and which
/// has the next; without one they are sorted by their statistics.
fn put_in_order(
    alloc: Global,
    table: &ServerTable,
    numbers: &mut Vec<u32>,
    strategy: Option<ServerOrderingStrategy>,
) -> Result<usize, NoMemory> {
    let mut turn = 1;
    match strategy {
        Some(strategy) => {
            let options = options_by(alloc, strategy)?;
            ordered(alloc, numbers, &mut turn, table, &options, 2_000_000)?;
        }
        None => sort_servers_by_query_statistics(alloc, numbers, table, 2_000_000)?,
    }
    Ok(turn)
}

/// The same of servers of which the second is the fastest.
fn order(
    alloc: Global,
    strategy: Option<ServerOrderingStrategy>,
) -> Result<(Option<[u32; 3]>, usize), NoMemory> {
    let mut numbers = Vec::new(alloc);
    let mut table = ServerTable::new(alloc);
    put_servers(alloc, &mut table, &mut numbers)?;
    let turn = put_in_order(alloc, &table, &mut numbers, strategy)?;
    Ok((places(&numbers), turn))
}

#[test]
fn servers_are_put_in_their_order(rt: HostRuntime) -> Result<(), Fail> {
    let alloc = rt.alloc();
    comes_to(order(alloc, None), (Some([1, 2, 0]), 1))?;
    let fastest = Some(ServerOrderingStrategy::QueryStatistics);
    comes_to(order(alloc, fastest), (Some([1, 2, 0]), 1))?;
    let given = Some(ServerOrderingStrategy::UserProvidedOrder);
    comes_to(order(alloc, given), (Some([0, 1, 2]), 1))?;
    let in_turn = Some(ServerOrderingStrategy::RoundRobin);
    comes_to(order(alloc, in_turn), (Some([1, 2, 0]), 0))
}

/// How many answers are left of one, and nothing where it is refused.
fn left_of(answer: &Result<Message, NetError>) -> Option<usize> {
    match answer {
        Ok(message) => Some(message.answers.len()),
        Err(_) => None,
    }
}

fn left_by(alloc: Global, filter: Option<&AccessControlSet>) -> Result<Option<usize>, Fail> {
    let query = query(alloc, "a.")?;
    let answer = filtered(alloc, message(alloc, false)?, query, filter);
    Ok(left_of(&answer))
}

/// The same where addresses that begin like this one are denied.
fn left_without(alloc: Global, first: u8) -> Result<Option<usize>, Fail> {
    let net = IpNet::new(IpAddr::V4(Ipv4Addr::new(first, 0, 0, 0)), 8)?;
    let filter = filter(alloc, &[net], &[])?;
    left_by(alloc, Some(&filter))
}

#[test]
fn a_denied_address_leaves_an_answer(rt: HostRuntime) -> Result<(), Fail> {
    let alloc = rt.alloc();
    is_wanted(left_by(alloc, None)?, Some(1))?;
    is_wanted(left_without(alloc, 12)?, Some(1))?;
    is_wanted(left_without(alloc, 11)?, None)
}
