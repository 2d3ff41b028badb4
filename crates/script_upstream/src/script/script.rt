//! Scripts: what is told of connections and questions, line by line.

use dns_core::{Items, Message, Name, NetError, Protocol, RecordType};
use std::net::IpAddr;

/// A line of a script. A delay is the number of polls that find nothing yet.
#[derive(Drop, Debug)]
pub enum ScriptLine {
    /// What a connection comes to, which is its error or that it is connected.
    Connect {
        ip: IpAddr,
        protocol: Protocol,
        delay: u32,
        error: Option<NetError>,
    },
    /// Connections are refused at once.
    Refuse {
        ip: IpAddr,
        protocol: Protocol,
    },
    /// What a question for the name and the type comes to. The question in a message is not read.
    Reply {
        ip: IpAddr,
        protocol: Protocol,
        name: Name,
        query_type: RecordType,
        delay: u32,
        outcome: Result<Message, NetError>,
    },
}

/// Lines, in an order that matters only among lines of one kind with the same address, protocol,
/// name and type.
#[derive(Debug)]
pub struct Script {
    pub lines: Items<ScriptLine>,
}

impl Drop for Script {
    fn drop(self) {
        let Script { lines: _ } = self;
    }
}
