//! Orders and their outcomes: the one language between what decides what is sent and whoever carries
//! the orders out.
ghost use Rattle.std.specs.Prelude.{◌≡◌, ◌↔◌, IsTrue};
ghost use Rattle.server_core.specs.Order.{ends_patience, entry_of};

use crate::orders::same_orders::{same_address, same_config, same_request};
use dns_core::{
    ConnectionConfig, DnsRequest, Message, NetError, NoMemory, Protocol, Query, TryClone,
};
use std::alloc::Global;
use std::net::IpAddr;

/// The moment of a step, in microseconds, and how many polls an order may be pending.
#[derive(Clone, Copy, Debug)]
pub struct Tick {
    pub now: u64,
    pub patience: u32,
}

impl Tick {
    /// Whether a poll that finds nothing, after so many others, is the last one that patience allows.
    pub fn is_last_poll(self, polls: u32) -> bool
        ensures { result ≡ ends_patience self.patience polls }
    {
        self.patience <= polls.saturating_add(1)
    }
}

/// What is to be done outside. `conn` is the number of the order that made the connection. A sleep
/// ends at a moment, in microseconds.
#[derive(Drop, Debug)]
pub enum Order {
    Open {
        ip: IpAddr,
        config: ConnectionConfig,
    },
    Ask {
        conn: u64,
        ip: IpAddr,
        protocol: Protocol,
        request: DnsRequest,
    },
    Sleep {
        until: u64,
    },
}

impl Order {
    /// Whether two orders are equal, the names in them with case.
    pub fn identical(&self, other: &Order) -> bool
        ensures { IsTrue result ↔ (self.now ≡ other.now) }
    {
        match (self, other) {
            (
                Order::Open { ip, config },
                Order::Open {
                    ip: other_ip,
                    config: other_config,
                },
            ) => same_address(*ip, *other_ip) && same_config(config, other_config),
            (
                Order::Ask {
                    conn,
                    ip,
                    protocol,
                    request,
                },
                Order::Ask {
                    conn: other_conn,
                    ip: other_ip,
                    protocol: other_protocol,
                    request: other_request,
                },
            ) => {
                *conn == *other_conn
                    && same_address(*ip, *other_ip)
                    && *protocol == *other_protocol
                    && same_request(request, other_request)
            }
            (Order::Sleep { until }, Order::Sleep { until: other_until }) => *until == *other_until,
            _ => false,
        }
    }
}

impl TryClone for Order {
    fn try_clone(&self, alloc: Global) -> Result<Self, NoMemory> {
        match self {
            Order::Open { ip, config } => {
                let config = config.try_clone(alloc)?;
                Ok(Order::Open { ip: *ip, config })
            }
            Order::Ask {
                conn,
                ip,
                protocol,
                request,
            } => {
                let request = request.try_clone(alloc)?;
                Ok(Order::Ask {
                    conn: *conn,
                    ip: *ip,
                    protocol: *protocol,
                    request,
                })
            }
            Order::Sleep { until } => Ok(Order::Sleep { until: *until }),
        }
    }
}

/// What was sent to an address: the number of the log entry that says so, the moment, and the question,
/// where it was one. Without one a connection was to be opened.
#[derive(Drop, Debug)]
pub struct SentBy {
    pub of: u64,
    pub ip: IpAddr,
    pub moment: u64,
    pub query: Option<Query>,
}

/// What came of it, with the number of the log entry that says so; of a sleep no entry says anything,
/// and the number is 0. A poll that found nothing names the entry that sent what it waits for; of a
/// sleep that is 0 too. `refused` tells a call that failed at once.
#[derive(Drop, Debug)]
pub enum Outcome {
    Pending {
        entry: u64,
        of: u64,
    },
    Connected {
        entry: u64,
        sent: SentBy,
    },
    Told {
        entry: u64,
        sent: SentBy,
        message: Message,
    },
    Failed {
        entry: u64,
        sent: SentBy,
        refused: bool,
        error: NetError,
    },
    Slept,
}

impl Outcome {
    pub fn entry(&self) -> u64
        ensures { result ≡ entry_of self.now }
    {
        match self {
            Outcome::Pending { entry, .. } => *entry,
            Outcome::Connected { entry, .. } => *entry,
            Outcome::Told { entry, .. } => *entry,
            Outcome::Failed { entry, .. } => *entry,
            Outcome::Slept => 0,
        }
    }
}

/// What an outcome did: the order goes on, has ended, has ended since patience is over and is to be
/// given up by whoever carries it, or was not open or is another.
#[derive(Clone, Copy, Debug, PartialEq, Eq)]
pub enum After {
    Kept,
    Ended,
    GiveUp,
    Late,
}
