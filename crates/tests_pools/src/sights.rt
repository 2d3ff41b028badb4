//! What is seen of calls on servers, sends, pools and lookups.

use dns_core::{IoKind, Message, NetError, Protocol};
use server_core::{After, Order, SendStep, Status};
use server_pool::PoolStep;
use tests_samples::Sight;

/// What a send ends with, and what a lookup answers.
#[derive(Clone, Copy, Debug, PartialEq)]
pub enum End {
    Denial,
    Busy,
    Closed,
    Refused,
    Timeout,
    Mismatch,
    Truncated,
    NoConnections,
    Other,
}

impl Sight<End> for NetError {
    fn sight(&self) -> End {
        match self {
            NetError::Dns(_) => End::Denial,
            NetError::Busy => End::Busy,
            NetError::Io(IoKind::Closed) => End::Closed,
            NetError::Io(IoKind::Refused) => End::Refused,
            NetError::Timeout => End::Timeout,
            NetError::QueryCaseMismatch => End::Mismatch,
            NetError::Truncated => End::Truncated,
            NetError::NoConnections => End::NoConnections,
            _ => End::Other,
        }
    }
}

/// What is kept of a server: the delay of its first connection and its status, and its own delay as it
/// reads, in whole microseconds.
#[derive(Clone, Copy, Debug, PartialEq)]
pub struct Kept {
    pub connection: u32,
    pub status: Status,
    pub server: u128,
}

/// What is seen of a call: the number of a server, how many there are, a pool by the place of the first
/// that has its number, with how many servers it has, a lookup by the place of the first that has its
/// number; the orders of a lookup with their numbers, and those of a send with the number of the connection
/// over which it asks, and else 0; an answer, or what a send or a lookup ends with in its place; what an
/// outcome did; and numbers, at most two. Of a server: the numbers of its first three connections, 0 for
/// none, its first three protocols, the places of the connection and of the way that are used, its delay,
/// and what is kept of it.
#[derive(Clone, Copy, Debug, PartialEq)]
pub enum Seen {
    Nothing,
    Server(u32),
    Servers(u32),
    Pool(usize, usize),
    Lookup(usize),
    Opens(u64, Protocol),
    Asks(u64, Protocol),
    Sleeps(u64, u64),
    Waits,
    Answers,
    Ends(End),
    Has(After),
    IsUndecided,
    Numbers(usize, Option<u64>, Option<u64>),
    Withdrawn(Option<u64>),
    Connections([u64; 3]),
    Protocols(Option<Protocol>, Option<Protocol>, Option<Protocol>),
    Chosen(Option<usize>, Option<usize>),
    Delay(u128),
    Keeps(Kept),
}

fn sight_of_order(number: u64, order: &Order) -> Seen {
    match order {
        Order::Open { config, .. } => Seen::Opens(number, config.protocol.to_protocol()),
        Order::Ask { protocol, .. } => Seen::Asks(number, *protocol),
        Order::Sleep { until } => Seen::Sleeps(number, *until),
    }
}

/// The same of an order of a send.
fn sight_of_send(order: &Order) -> Seen {
    match order {
        Order::Ask { conn, .. } => sight_of_order(*conn, order),
        _ => sight_of_order(0, order),
    }
}

fn sight_of_answer(answer: &Result<Message, NetError>) -> Seen {
    match answer {
        Ok(_) => Seen::Answers,
        Err(error) => Seen::Ends(error.sight()),
    }
}

impl Sight<Seen> for PoolStep {
    fn sight(&self) -> Seen {
        match self {
            PoolStep::Order { number, order } => sight_of_order(*number, order),
            PoolStep::Waiting => Seen::Waits,
            PoolStep::Done(answer) => sight_of_answer(answer),
        }
    }
}

impl Sight<Seen> for SendStep {
    fn sight(&self) -> Seen {
        match self {
            SendStep::Order(order) => sight_of_send(order),
            SendStep::Waiting => Seen::Waits,
            SendStep::Done(end) => sight_of_answer(end),
        }
    }
}

impl Sight<Seen> for Option<Result<Message, NetError>> {
    fn sight(&self) -> Seen {
        match self {
            Some(answer) => sight_of_answer(answer),
            None => Seen::IsUndecided,
        }
    }
}
