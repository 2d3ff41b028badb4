//! Servers, and how they are reached.
ghost use Rattle.std.specs.Prelude.{◌≡◌, ◌∷◌, [], IfOk};
ghost use Rattle.resolver_settings.specs.NameServer.{believed, over_udp, over_tcp, over_tls, over_quic, same_servers, same_servers_per, same_servers_equiv};

use crate::address_text::text_of_address;
use dns_core::{ConnectionConfig, Items, NoMemory, ProtocolConfig, TryClone};
use std::alloc::Global;
use std::marker::Model;
use std::net::IpAddr;

/// The ways to reach a server, in an order.
pub type ConnectionConfigs = Items<ConnectionConfig>;

/// A server, and how it is reached.
#[derive(Debug)]
pub struct NameServerConfig {
    pub ip: IpAddr,

    /// Whether it is believed that a name or a type does not exist.
    pub trust_negative_responses: bool,

    /// The ways to reach it, in the order in which they are tried.
    pub connections: ConnectionConfigs,
}

impl Drop for NameServerConfig {
    fn drop(self) {
        let NameServerConfig {
            ip: _,
            trust_negative_responses: _,
            connections: _,
        } = self;
    }
}

impl Model for NameServerConfig {
    ghost use Rattle.resolver_settings.specs.NameServer.{NameServer};

    ghost Value = { NameServer };

    ghost view = { λ a. record { ip = a.ip; trust_negative_responses = a.trust_negative_responses; connections = a.connections } };
}

fn connection(port: u16, protocol: ProtocolConfig) -> ConnectionConfig
    ensures { result ≡ record { port = port; protocol = protocol; bind_addr = None } }
{
    ConnectionConfig {
        port,
        protocol,
        bind_addr: None,
    }
}

fn udp() -> ConnectionConfig
    ensures { result ≡ over_udp }
{
    connection(53, ProtocolConfig::Udp)
}

fn tcp() -> ConnectionConfig
    ensures { result ≡ over_tcp }
{
    connection(53, ProtocolConfig::Tcp)
}

fn tls(alloc: Global, ip: IpAddr) -> Result<ConnectionConfig, NoMemory>
    ensures { IfOk result (λ connection. connection ≡ over_tls ip) }
{
    let server_name = text_of_address(alloc, ip)?;
    Ok(connection(853, ProtocolConfig::Tls { server_name }))
}

fn quic(alloc: Global, ip: IpAddr) -> Result<ConnectionConfig, NoMemory>
    ensures { IfOk result (λ connection. connection ≡ over_quic ip) }
{
    let server_name = text_of_address(alloc, ip)?;
    Ok(connection(853, ProtocolConfig::Quic { server_name }))
}

impl NameServerConfig {
    fn of(ip: IpAddr, connections: Vec<ConnectionConfig>) -> Self
        ensures { result ≡ believed ip connections.items }
    {
        NameServerConfig {
            ip,
            trust_negative_responses: true,
            connections: Items::new(connections),
        }
    }

    /// Reached over UDP alone.
    pub fn udp(alloc: Global, ip: IpAddr) -> Result<Self, NoMemory>
        ensures { IfOk result (λ server. server ≡ believed ip (over_udp ∷ [])) }
    {
        let connections = vec![in alloc; udp()]?;
        Ok(NameServerConfig::of(ip, connections))
    }

    /// Reached over TCP alone.
    pub fn tcp(alloc: Global, ip: IpAddr) -> Result<Self, NoMemory>
        ensures { IfOk result (λ server. server ≡ believed ip (over_tcp ∷ [])) }
    {
        let connections = vec![in alloc; tcp()]?;
        Ok(NameServerConfig::of(ip, connections))
    }

    /// Reached over UDP, and then over TCP.
    pub fn udp_and_tcp(alloc: Global, ip: IpAddr) -> Result<Self, NoMemory>
        ensures { IfOk result (λ server. server ≡ believed ip (over_udp ∷ over_tcp ∷ [])) }
    {
        let connections = vec![in alloc; udp(), tcp()]?;
        Ok(NameServerConfig::of(ip, connections))
    }

    /// Reached over UDP, TCP, TLS and QUIC, in this order; the last two under the text of the
    /// address as the name of the server.
    pub fn opportunistic_encryption(alloc: Global, ip: IpAddr) -> Result<Self, NoMemory>
        ensures { IfOk result (λ server. server ≡ believed ip (over_udp ∷ over_tcp ∷ over_tls ip ∷ over_quic ip ∷ [])) }
    {
        let tls = tls(alloc, ip)?;
        let quic = quic(alloc, ip)?;
        let connections = vec![in alloc; udp(), tcp(), tls, quic]?;
        Ok(NameServerConfig::of(ip, connections))
    }
}

impl PartialEq for NameServerConfig {
    ghost eq = { same_servers };

    ghost laws = { same_servers_per };

    fn eq(&self, other: &Self) -> bool {
        self.ip == other.ip
            && self.trust_negative_responses == other.trust_negative_responses
            && self.connections == other.connections
    }
}

impl Eq for NameServerConfig {
    ghost laws = { same_servers_equiv };
}

impl TryClone for NameServerConfig {
    fn try_clone(&self, alloc: Global) -> Result<Self, NoMemory> {
        let connections = self.connections.try_clone(alloc)?;
        Ok(NameServerConfig {
            ip: self.ip,
            trust_negative_responses: self.trust_negative_responses,
            connections,
        })
    }
}
