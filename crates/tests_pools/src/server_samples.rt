//! Servers that tests are made of. Each call that hands out memory stands in one place here.

use dns_core::{ConnectionConfig, NameError, NoMemory, Protocol, ProtocolConfig};
use resolver_settings::{NameServerConfig, ServerOrderingStrategy};
use server_core::{Connection, DecayingSrtt, NameServer, PoolContext, Status};
use std::alloc::Global;
use tests_samples::{ip, options, plain};

/// How a server is reached, and the connections that were opened to it, each with its number.
#[derive(Clone, Copy)]
pub enum Reached {
    /// Over UDP and TCP, with these, in the user's order.
    Opened(&'static [(Protocol, u64)]),
    /// The same where servers have their turns.
    InTurn(&'static [(Protocol, u64)]),
    /// Over UDP alone, without a connection.
    ByUdp,
    /// Over TCP first, and then over UDP, without a connection.
    ByTcpFirst,
    /// Over UDP and TCP, with the connection 3 of UDP whose delay is known.
    Known,
}

const BY_THE_USER: ServerOrderingStrategy = ServerOrderingStrategy::UserProvidedOrder;

const IN_TURN: ServerOrderingStrategy = ServerOrderingStrategy::RoundRobin;

pub fn context(alloc: Global) -> Result<PoolContext, NameError> {
    Ok(PoolContext::new(options(alloc)?))
}

/// A server that is reached in some way, to which these connections were opened.
fn server_of(
    alloc: Global,
    config: NameServerConfig,
    opened: &[(Protocol, u64)],
    strategy: ServerOrderingStrategy,
) -> Result<NameServer, NoMemory> {
    let mut options = options(alloc)?;
    options.server_ordering_strategy = strategy;
    NameServer::new(alloc, Vec::from_slice(alloc, opened)?, config, &options, 10)
}

/// A server that is reached over UDP and TCP, without connections.
pub fn unopened(alloc: Global) -> Result<NameServer, NoMemory> {
    server_of(alloc, plain(alloc)?, &[], BY_THE_USER)
}

/// The connection 3 of UDP, whose delay of 1,000 microseconds was recorded at 2,000.
fn known_connection() -> Connection {
    let mut delay = DecayingSrtt::new(10);
    delay.record(1_000, 2_000);
    Connection {
        number: 3,
        protocol: Protocol::Udp,
        status: Status::Init,
        delay,
    }
}

fn known(alloc: Global) -> Result<NameServer, NoMemory> {
    let mut server = unopened(alloc)?;
    server.keep(known_connection())?;
    Ok(server)
}

/// The ways to a server over TCP first, and then over UDP.
fn tcp_first(alloc: Global) -> Result<NameServerConfig, NoMemory> {
    let mut config = NameServerConfig::tcp(alloc, ip(1))?;
    config.connections.push(ConnectionConfig {
        port: 53,
        protocol: ProtocolConfig::Udp,
        bind_addr: None,
    })?;
    Ok(config)
}

pub fn server(alloc: Global, reached: Reached) -> Result<NameServer, NoMemory> {
    match reached {
        Reached::Opened(opened) => server_of(alloc, plain(alloc)?, opened, BY_THE_USER),
        Reached::InTurn(opened) => server_of(alloc, plain(alloc)?, opened, IN_TURN),
        Reached::ByUdp => {
            server_of(
                alloc,
                NameServerConfig::udp(alloc, ip(1))?,
                &[],
                BY_THE_USER,
            )
        }
        Reached::ByTcpFirst => server_of(alloc, tcp_first(alloc)?, &[], BY_THE_USER),
        Reached::Known => known(alloc),
    }
}
