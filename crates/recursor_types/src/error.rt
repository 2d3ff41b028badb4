//! What a question is answered with where it is no message.

use dns_core::{
    Boxed, ForwardNsData, IoKind, Items, Name, NetError, Query, Record, RecordType, Records, Text,
};
use thiserror::Error;

/// What is wrong with what a recursor was handed.
#[derive(Clone, Copy, Debug, PartialEq, Eq, Error)]
pub enum MessageKind {
    #[error("query's domain name must be fully qualified")]
    NotQualified,
    #[error("roots must not be empty")]
    NoRoots,
    #[error("minimum TTL above maximum TTL")]
    ReversedTtl,
    #[error("first delays must be from 1 to 31")]
    FirstDelays,
}

/// Why no server of a zone was found.
#[derive(Clone, Copy, Debug, PartialEq, Eq, Error)]
pub enum WalkCause {
    #[error("maximum recursion limit exceeded")]
    DepthLimit,
    #[error("net error: Timeout")]
    Timeout,
    #[error("no glue found for any nameservers for zone")]
    NoAddress,
    #[error("per-request query budget exceeded")]
    Budget,
    #[error("zone entry limit exceeded")]
    ZoneEntries,
    #[error("zone is already on the resolution stack")]
    Collision,
}

/// A negative response: the question that it answers, its SOA and its authority section.
/// `no_records_found` is false where the zone of the server that told it leaves nothing of it.
#[derive(Drop, Debug, PartialEq, Eq)]
pub struct AuthorityData {
    pub query: Query,
    pub soa: Option<Boxed<Record>>,
    pub no_records_found: bool,
    pub nx_domain: bool,
    pub authorities: Records,
}

/// Why a question has no message as its answer.
#[derive(Drop, Debug, PartialEq, Eq)]
pub enum RecursorError {
    MaxRecordLimitExceeded {
        count: usize,
        record_type: RecordType,
    },
    Message(MessageKind),
    Msg(Text),
    Negative(AuthorityData),
    ForwardNS(Items<ForwardNsData>),
    Io(IoKind),
    Net(NetError),
    Timeout,
    RecursionLimitExceeded {
        count: usize,
    },
    QueryBudgetExceeded,
    NoNameServer {
        zone: Name,
        cause: WalkCause,
    },
    NoMemory,
}
