//! Which servers and connections are used.
ghost use Rattle.std.specs.Prelude.{◌≡◌, ◌+◌, ◌<◌, IfSome, length, take};
ghost use Rattle.server_core.specs.Choice.{Picks};
ghost use Rattle.server_core.specs.Policy.{allows, allows_config, allows_connection, allows_server, rank, is_before, is_config_before};

use crate::name_server::{Connection, NameServer, is_udp};
use crate::sends::context::PoolContext;
use dns_core::{ConnectionConfig, Protocol};

/// Which protocols are used.
#[derive(Clone, Copy, Debug, PartialEq, Eq)]
pub struct ConnectionPolicy {
    pub disable_udp: bool,
}

impl Default for ConnectionPolicy {
    ghost use Rattle.std.specs.Prelude.{◌≡◌, false};

    ghost is_default = { λ policy. policy ≡ record { disable_udp = false } };

    /// Every protocol is used.
    fn default() -> Self {
        ConnectionPolicy { disable_udp: false }
    }
}

fn rank(protocol: Protocol) -> u8
    ensures { result ≡ rank protocol }
{
    if is_udp(protocol) { 0 } else { 1 }
}

fn is_before(a: &Connection, b: &Connection, now: u64) -> bool
    ensures { result ≡ is_before now a.now b.now }
{
    let first = rank(a.protocol);
    let second = rank(b.protocol);
    first < second || (first == second && a.delay.current_fixed(now) < b.delay.current_fixed(now))
}

fn is_config_before(a: &ConnectionConfig, b: &ConnectionConfig) -> bool
    ensures { result ≡ is_config_before a.now b.now }
{
    rank(a.protocol.to_protocol()) < rank(b.protocol.to_protocol())
}

impl ConnectionPolicy {
    pub fn allows_protocol(&self, protocol: Protocol) -> bool
        ensures { result ≡ allows self.now protocol }
    {
        !(self.disable_udp && is_udp(protocol))
    }

    fn allows_config(&self, config: &ConnectionConfig) -> bool
        ensures { result ≡ allows_config self.now config.now }
    {
        self.allows_protocol(config.protocol.to_protocol())
    }

    /// Whether it allows one of the ways to reach a server.
    pub fn allows_server(&self, server: &NameServer) -> bool
        ensures { result ≡ allows_server self.now server.now }
    {
        server.configs().iter().any(|c| self.allows_config(c))
    }

    /// The best of the connections up to and with this one, where `best` is that of those before it.
    fn better(
        &self,
        connections: &[Connection],
        best: Option<usize>,
        place: usize,
        now: u64,
    ) -> Option<usize>
        requires room { place < length connections.now }
        requires best { Picks (allows_connection self.now) (is_before now) (take place connections.now) best }
        ensures { Picks (allows_connection self.now) (is_before now) (take (place + 1) connections.now) result }
    {
        let connection = &connections[place];
        if !self.allows_protocol(connection.protocol) {
            return best;
        }
        let Some(earlier) = best else {
            return Some(place);
        };
        if is_before(connection, &connections[earlier], now) {
            Some(place)
        } else {
            Some(earlier)
        }
    }

    /// The place of the connection that is used: of those of allowed protocols the one of UDP before
    /// the rest, then the one of the least delay, and of equal ones the first. As long as connections
    /// are not encrypted the choice is the same in each context.
    pub fn select_connection(
        &self,
        server: &NameServer,
        _cx: &PoolContext,
        now: u64,
    ) -> Option<usize>
        ensures choice { Picks (allows_connection self.now) (is_before now) server.now.connections result }
        ensures within { IfSome result (λ place. place < length server.now.connections) }
    {
        let connections = server.connections();
        let mut best: Option<usize> = None;
        for place in 0..connections.len() {
            best = self.better(connections, best, place, now);
        }
        best
    }

    /// The same of two ways to reach a server.
    fn better_config(
        &self,
        configs: &[ConnectionConfig],
        best: Option<usize>,
        place: usize,
    ) -> Option<usize>
        requires room { place < length configs.now }
        requires best { Picks (allows_config self.now) is_config_before (take place configs.now) best }
        ensures { Picks (allows_config self.now) is_config_before (take (place + 1) configs.now) result }
    {
        let config = &configs[place];
        if !self.allows_config(config) {
            return best;
        }
        let Some(earlier) = best else {
            return Some(place);
        };
        if is_config_before(config, &configs[earlier]) {
            Some(place)
        } else {
            Some(earlier)
        }
    }

    /// The place of the way over which a new connection is opened: of those of allowed protocols the
    /// first one of UDP, or else the first one. As long as connections are not encrypted the choice is
    /// the same in each context and at each moment.
    pub fn select_connection_config(
        &self,
        server: &NameServer,
        _cx: &PoolContext,
        _now: u64,
    ) -> Option<usize>
        ensures choice { Picks (allows_config self.now) is_config_before server.now.config.connections result }
        ensures within { IfSome result (λ place. place < length server.now.config.connections) }
    {
        let configs = server.configs();
        let mut best: Option<usize> = None;
        for place in 0..configs.len() {
            best = self.better_config(configs, best, place);
        }
        best
    }
}
