//! The log of a provider: what was opened and asked, and what was told of it.

use crate::connection::Protocol;
use crate::items::Items;
use crate::message::{Message, Query};
use crate::net_error::NetError;
use std::net::IpAddr;

/// The entries of a log, numbered from 1.
pub type Log = Items<LogEntry>;

/// What a connection or an exchange came to.
#[derive(Drop, Debug, PartialEq, Eq)]
pub enum ToldOutcome {
    Connected,
    Message(Message),
    Error(NetError),
}

/// An entry of a log. Moments are in microseconds; `of` is the number of the entry that opened or
/// asked.
#[derive(Drop, Debug, PartialEq, Eq)]
pub enum LogEntry {
    /// A connection was to be opened, and was refused at once where `refused` says why.
    Opened {
        ip: IpAddr,
        protocol: Protocol,
        moment: u64,
        refused: Option<NetError>,
    },
    /// A question was to be asked, and was refused at once where `refused` says why.
    Asked {
        ip: IpAddr,
        protocol: Protocol,
        query: Query,
        moment: u64,
        refused: Option<NetError>,
    },
    /// It was polled, and nothing was told.
    Waited {
        of: u64,
    },
    /// It was told an outcome.
    Told {
        of: u64,
        moment: u64,
        outcome: ToldOutcome,
    },
    /// It was given up.
    GaveUp {
        of: u64,
        moment: u64,
    },
}
