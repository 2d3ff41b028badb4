//! A name server, its connections and its delay.
ghost use Rattle.std.specs.Prelude.{◌≡◌, ◌+◌, ◌-◌, ◌^◌, ◌++◌, ◌∷◌, [], map, min, IfOk, OnOk, OnErr};
ghost use Rattle.std.specs.Bool.{beq};
ghost use Rattle.std.specs.List.{filter, list_any};
ghost use Rattle.server_core.specs.Delays.{read_fixed, recorded};
ghost use Rattle.server_core.specs.Servers.{is_udp, is_live, IsFirstDelay};
ghost use Rattle.server_core.specs.Hearing.{touched, after_heard, without_dead, with_opened};
ghost use Rattle.server_core.specs.NewServer.{begun, udp_first, in_order, new_server};

use crate::delays::DecayingSrtt;
use crate::heard::{Heard, count};
use crate::protocols::Protocols;
use crate::status::Status;
use dns_core::{ConnectionConfig, NoMemory, Protocol, TryClone, try_clone_all};
use resolver_settings::{NameServerConfig, ResolverOpts, ServerOrderingStrategy};
use std::alloc::Global;
use std::marker::Model;
use std::net::IpAddr;

/// A connection that is kept, by the number of the order that opened it.
#[derive(Drop, Debug)]
pub struct Connection {
    pub number: u64,
    pub protocol: Protocol,
    pub status: Status,
    pub delay: DecayingSrtt,
}

/// A name server: how it is reached, the connections that are kept to it, and its delay.
#[derive(Debug)]
pub struct NameServer {
    config: NameServerConfig,
    connections: Vec<Connection>,
    delay: DecayingSrtt,
    first_delay: u8,
}

impl Drop for NameServer {
    fn drop(self) {
        let NameServer {
            config: _,
            connections: _,
            delay: _,
            first_delay: _,
        } = self;
    }
}

impl Model for NameServer {
    ghost use Rattle.server_core.specs.Servers.{Server, IsFirstDelay};

    ghost Value = { Server };

    ghost view = { λ a. record { config = a.config; connections = a.connections.items; delay = a.delay; first_delay = a.first_delay } };

    ghost invariant = { λ a. IsFirstDelay a.first_delay };
}

/// Whether a protocol is UDP.
pub fn is_udp(protocol: Protocol) -> bool
    ensures { result ≡ is_udp protocol }
{
    matches!(&protocol, Protocol::Udp)
}

impl Connection {
    fn is_live(&self) -> bool
        ensures { result ≡ is_live self.now }
    {
        match self.status {
            Status::Failed => false,
            Status::Init | Status::Established => true,
        }
    }

    /// Takes in what was heard, where it has this number.
    fn touch(&mut self, number: u64, status: Status, heard: Heard, now: u64)
        ensures { self.new ≡ touched number status heard now self.old }
    {
        if self.number == number {
            self.status = status;
            count(&mut self.delay, heard, now);
        }
    }
}

/// Adds those that are of UDP, or those that are not.
fn add_those(
    ordered: &mut Vec<(Protocol, u64)>,
    opened: &[(Protocol, u64)],
    of_udp: bool,
) -> Result<(), NoMemory>
    ensures { OnOk result (ordered.new.items ≡ ordered.old.items ++ filter (λ o. beq (is_udp o.0) of_udp) opened.now) }
{
    for one in opened {
        if is_udp(one.0) == of_udp {
            ordered.push(*one)?;
        }
    }
    Ok(())
}

fn udp_first(alloc: Global, opened: &[(Protocol, u64)]) -> Result<Vec<(Protocol, u64)>, NoMemory>
    ensures { IfOk result (λ ordered. ordered.items ≡ udp_first opened.now) }
{
    let mut ordered = Vec::with_capacity(alloc, opened.len())?;
    add_those(&mut ordered, opened, true)?;
    add_those(&mut ordered, opened, false)?;
    Ok(ordered)
}

fn in_order(
    alloc: Global,
    strategy: ServerOrderingStrategy,
    opened: Vec<(Protocol, u64)>,
) -> Result<Vec<(Protocol, u64)>, NoMemory>
    ensures { IfOk result (λ ordered. ordered.items ≡ in_order strategy opened.items) }
{
    match strategy {
        ServerOrderingStrategy::UserProvidedOrder => Ok(opened),
        ServerOrderingStrategy::QueryStatistics | ServerOrderingStrategy::RoundRobin => {
            udp_first(alloc, &opened)
        }
    }
}

/// The connection that the order of a number opened.
fn new_connection(number: u64, protocol: Protocol, first_delay: u8) -> Connection
    requires { IsFirstDelay first_delay }
    ensures { result ≡ begun first_delay (protocol, number) }
{
    Connection {
        number,
        protocol,
        status: Status::Init,
        delay: DecayingSrtt::new(first_delay as u32),
    }
}

fn begun(
    alloc: Global,
    opened: &[(Protocol, u64)],
    first_delay: u8,
) -> Result<Vec<Connection>, NoMemory>
    requires { IsFirstDelay first_delay }
    ensures { IfOk result (λ connections. connections.items ≡ map (begun first_delay) opened.now) }
{
    let mut connections = Vec::with_capacity(alloc, opened.len())?;
    for one in opened {
        connections.push(new_connection(one.1, one.0, first_delay))?;
    }
    Ok(connections)
}

fn keep_live(connections: &mut Vec<Connection>)
    ensures { connections.new.items ≡ filter is_live connections.old.items }
{
    connections.retain(|c| c.is_live());
}

/// Takes in what was heard of the connection of a number.
fn touch_all(connections: &mut Vec<Connection>, number: u64, status: Status, heard: Heard, now: u64)
    ensures { connections.new.items ≡ map (touched number status heard now) connections.old.items }
{
    for connection in connections.iter_mut() {
        connection.touch(number, status, heard, now);
    }
}

impl NameServer {
    /// A server with the connections that were opened to it, each by its protocol and the number of
    /// the order that opened it. Those of UDP come first, but where the order is the user's.
    pub fn new(
        alloc: Global,
        connections: Vec<(Protocol, u64)>,
        config: NameServerConfig,
        options: &ResolverOpts,
        first_delay: u8,
    ) -> Result<Self, NoMemory>
        requires { IsFirstDelay first_delay }
        ensures { IfOk result (λ server. server ≡ new_server connections.items config options.now.server_ordering_strategy first_delay) }
    {
        let ordered = in_order(alloc, options.server_ordering_strategy, connections)?;
        let connections = begun(alloc, &ordered, first_delay)?;
        Ok(NameServer {
            config,
            connections,
            delay: DecayingSrtt::new(first_delay as u32),
            first_delay,
        })
    }

    pub fn ip(&self) -> IpAddr
        ensures { result ≡ self.now.config.ip }
    {
        self.config.ip
    }

    /// The ways to reach it, in their order.
    pub fn configs(&self) -> &[ConnectionConfig]
        ensures { result.now ≡ self.now.config.connections }
    {
        self.config.connections.items()
    }

    /// The protocols over which it is reached, in their order.
    pub fn protocols(&self) -> Protocols<'_>
        ensures { result.left.now ≡ self.now.config.connections }
    {
        Protocols {
            left: self.configs(),
        }
    }

    /// The connections that are kept to it, in their order.
    pub fn connections(&self) -> &[Connection]
        ensures { result.now ≡ self.now.connections }
    {
        self.connections.as_slice()
    }

    /// Keeps one more connection, behind the others.
    pub fn keep(&mut self, connection: Connection) -> Result<(), NoMemory>
        ensures ok { OnOk result (self.new ≡ record self.old { connections = self.old.connections ++ connection ∷ [] }) }
        ensures err { OnErr result (self.new ≡ self.old) }
    {
        self.connections.push(connection)?;
        Ok(())
    }

    /// Drops the connections that failed.
    pub(crate) fn drop_dead(&mut self)
        ensures { self.new ≡ without_dead self.old }
    {
        keep_live(&mut self.connections);
    }

    /// Keeps the connection that the order of a number opened.
    pub(crate) fn keep_opened(&mut self, number: u64, protocol: Protocol) -> Result<(), NoMemory>
        ensures ok { OnOk result (self.new ≡ with_opened number protocol self.old) }
        ensures err { OnErr result (self.new ≡ self.old) }
    {
        self.keep(new_connection(number, protocol, self.first_delay))
    }

    /// Takes in what was heard over its connection of a number.
    pub(crate) fn hear(&mut self, number: u64, status: Status, heard: Heard, now: u64)
        ensures { self.new ≡ after_heard number status heard now self.old }
    {
        touch_all(&mut self.connections, number, status, heard, now);
        count(&mut self.delay, heard, now);
    }

    /// Its delay at a moment.
    pub fn decayed_srtt(&self, now: u64) -> u128
        ensures { result ≡ read_fixed self.now.delay now }
    {
        self.delay.current_fixed(now)
    }

    /// Records that another server answered first, after `winner` microseconds: this one counts as
    /// slower by 5,000.
    pub fn record_cancelled(&mut self, winner: u64, now: u64)
        ensures { self.new ≡ record self.old { delay = recorded self.old.delay (min (winner + 5000) (2 ^ 64 - 1)) now } }
    {
        self.delay.record(winner.saturating_add(5_000), now);
    }

    /// Whether it is believed that a name or a type does not exist.
    pub fn trust_negative_responses(&self) -> bool
        ensures { result ≡ self.now.config.trust_negative_responses }
    {
        self.config.trust_negative_responses
    }

    /// Whether a connection to it is open, or is about to be.
    pub fn is_connected(&self) -> bool
        ensures { result ≡ list_any is_live self.now.connections }
    {
        self.connections.iter().any(|c| c.is_live())
    }
}

impl TryClone for NameServer {
    fn try_clone(&self, alloc: Global) -> Result<Self, NoMemory> {
        let config = self.config.try_clone(alloc)?;
        let connections = try_clone_all(alloc, &self.connections)?;
        Ok(NameServer {
            config,
            connections,
            delay: self.delay,
            first_delay: self.first_delay,
        })
    }
}
