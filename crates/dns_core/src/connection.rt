//! Transports, and how a connection of each is opened.
ghost use Rattle.std.specs.Prelude.{◌≡◌};
ghost use Rattle.dns_core.specs.Connection.{protocol_of, is_encrypted};

use crate::items::{Ports, Text};
use std::net::IpAddr;

/// A transport.
#[derive(Clone, Copy, Debug, PartialEq, Eq, PartialOrd, Ord, Hash)]
pub enum Protocol {
    Udp,
    Tcp,
    Tls,
    Https,
    Quic,
    H3,
}

impl Protocol {
    /// Whether it is neither UDP nor TCP.
    pub fn is_encrypted(self) -> bool
        ensures { result ≡ is_encrypted self }
    {
        match self {
            Protocol::Udp | Protocol::Tcp => false,
            Protocol::Tls | Protocol::Https | Protocol::Quic | Protocol::H3 => true,
        }
    }
}

/// A transport with what it needs beside an address and a port.
#[derive(Drop, Debug, PartialEq, Eq)]
pub enum ProtocolConfig {
    Udp,
    Tcp,
    Tls {
        server_name: Text,
    },
    Https {
        server_name: Text,
        path: Text,
    },
    Quic {
        server_name: Text,
    },
    H3 {
        server_name: Text,
        path: Text,
        disable_grease: bool,
    },
}

impl ProtocolConfig {
    pub fn to_protocol(&self) -> Protocol
        ensures { result ≡ protocol_of self.now }
    {
        match self {
            ProtocolConfig::Udp => Protocol::Udp,
            ProtocolConfig::Tcp => Protocol::Tcp,
            ProtocolConfig::Tls { .. } => Protocol::Tls,
            ProtocolConfig::Https { .. } => Protocol::Https,
            ProtocolConfig::Quic { .. } => Protocol::Quic,
            ProtocolConfig::H3 { .. } => Protocol::H3,
        }
    }
}

/// One way to reach a server.
#[derive(Drop, Debug, PartialEq, Eq)]
pub struct ConnectionConfig {
    pub port: u16,
    pub protocol: ProtocolConfig,
    pub bind_addr: Option<(IpAddr, u16)>,
}

/// What every connection of a resolver is opened with. The timeout is in microseconds.
#[derive(Drop, Debug, PartialEq, Eq)]
pub struct ConnectOptions {
    pub timeout: u64,
    pub max_active_requests: u32,
    pub case_randomization: bool,
    pub os_port_selection: bool,
    pub avoid_local_udp_ports: Ports,
}
