//! The servers of a pool that can be asked, as a lookup sees them.
ghost use Rattle.std.specs.Prelude.{◌≡◌, IfOk, filter, map, true, false, option_map};
ghost use Rattle.server_core.specs.Servers.{server_of};
ghost use Rattle.server_pool.specs.UsableServers.{candidate_of, usable_servers, is_reached, is_trusted};

use dns_core::NoMemory;
use pool_rules::PoolServer;
use server_core::{ConnectionPolicy, NameServer, ServerTable};
use std::alloc::Global;

/// The server of a number, where the table has it.
fn server_of(table: &ServerTable, number: u32) -> Option<&NameServer>
    ensures { option_map (λ s. s.now) result ≡ server_of table.now number }
{
    if table.is_live(number) {
        Some(table.get(number))
    } else {
        None
    }
}

/// Whether a policy allows one of the ways to reach the server of a number.
fn is_reached(table: &ServerTable, policy: ConnectionPolicy, number: u32) -> bool
    ensures { result ≡ is_reached policy table.now number }
{
    match server_of(table, number) {
        Some(server) => policy.allows_server(server),
        None => false,
    }
}

fn is_trusted(table: &ServerTable, number: u32) -> bool
    ensures { result ≡ is_trusted table.now number }
{
    match server_of(table, number) {
        Some(server) => server.trust_negative_responses(),
        None => false,
    }
}

fn candidate_of(table: &ServerTable, number: u32) -> PoolServer
    ensures { result ≡ candidate_of table.now number }
{
    PoolServer {
        server: number,
        beyond_udp: is_reached(table, ConnectionPolicy { disable_udp: true }, number),
        trusted: is_trusted(table, number),
    }
}

/// Keeps the numbers whose servers can be reached at all, in their order.
fn keep_reached(table: &ServerTable, servers: &mut Vec<u32>)
    ensures { servers.new.items ≡ filter (is_reached (record { disable_udp = false }) table.now) servers.old.items }
{
    servers.retain(|number| is_reached(table, ConnectionPolicy { disable_udp: false }, *number));
}

/// The servers of these numbers, in their order.
fn all_candidates(
    alloc: Global,
    table: &ServerTable,
    servers: &[u32],
) -> Result<Vec<PoolServer>, NoMemory>
    ensures { IfOk result (λ found. found.items ≡ map (candidate_of table.now) servers.now) }
{
    let mut found = Vec::with_capacity(alloc, servers.len())?;
    for number in servers {
        found.push(candidate_of(table, *number))?;
    }
    Ok(found)
}

/// The servers of these numbers that can be reached at all, in their order.
pub fn usable_servers(
    alloc: Global,
    table: &ServerTable,
    mut servers: Vec<u32>,
) -> Result<Vec<PoolServer>, NoMemory>
    ensures { IfOk result (λ found. found.items ≡ usable_servers table.now servers.items) }
{
    keep_reached(table, &mut servers);
    all_candidates(alloc, table, servers.as_slice())
}
