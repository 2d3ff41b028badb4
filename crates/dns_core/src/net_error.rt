//! What a response or an exchange ends in where it is no message.
ghost use Rattle.std.specs.Prelude.{◌≡◌};
ghost use Rattle.dns_core.specs.NetError.{is_memory, is_closed, is_no_records, is_nx_domain, soa_of};

use crate::boxed::Boxed;
use crate::codes::{DnsClass, RecordType, ResponseCode};
use crate::items::{Items, Text};
use crate::message::Query;
use crate::name::Name;
use crate::record::{Record, Records};

/// The kind of a fault of transport.
#[derive(Clone, Copy, Debug, PartialEq, Eq)]
pub enum IoKind {
    Closed,
    Refused,
    Other,
}

/// An NS record with the addresses that are known for its target.
#[derive(Debug, PartialEq, Eq)]
pub struct ForwardNsData {
    pub ns: Record,
    pub glue: Records,
}

impl Drop for ForwardNsData {
    fn drop(self) {
        let ForwardNsData { ns: _, glue: _ } = self;
    }
}

/// A response without the records asked for (RFC 2308 section 2): its question, its SOA, the
/// delegations that it holds if any, its code and its authority section.
#[derive(Drop, Debug, PartialEq, Eq)]
pub struct NoRecords {
    pub query: Query,
    pub soa: Option<Boxed<Record>>,
    pub ns: Option<Items<ForwardNsData>>,
    pub response_code: ResponseCode,
    pub authorities: Records,
}

/// An error that a response tells.
#[derive(Drop, Debug, PartialEq, Eq)]
pub enum DnsError {
    NoRecordsFound(NoRecords),
    ResponseCode(ResponseCode),
}

/// What a connection or an exchange ends in where it is no message.
#[derive(Drop, Debug, PartialEq, Eq)]
pub enum NetError {
    Busy,
    Io(IoKind),
    Timeout,
    NoConnections,
    Truncated,
    QueryCaseMismatch,
    ForeignClassRecord {
        record_name: Name,
        record_class: DnsClass,
        record_type: RecordType,
    },
    Dns(DnsError),
    Msg(Text),
    NoMemory,
}

impl NetError {
    /// Whether this is out of memory, which no log shows.
    pub fn is_memory(&self) -> bool
        ensures { result ≡ is_memory self.now }
    {
        matches!(self, NetError::NoMemory)
    }

    /// Whether the connection was closed by the other side.
    pub fn is_connection_closed(&self) -> bool
        ensures { result ≡ is_closed self.now }
    {
        matches!(self, NetError::Io(IoKind::Closed))
    }

    /// Whether a response was told that has no such records.
    pub fn is_no_records_found(&self) -> bool
        ensures { result ≡ is_no_records self.now }
    {
        matches!(self, NetError::Dns(DnsError::NoRecordsFound(_)))
    }

    /// Whether a response was told that there is no such name.
    pub fn is_nx_domain(&self) -> bool
        ensures { result ≡ is_nx_domain self.now }
    {
        match self {
            NetError::Dns(DnsError::NoRecordsFound(found)) => found.response_code.code == 3,
            _ => false,
        }
    }

    /// The SOA of a response that has no such records.
    pub fn into_soa(self) -> Option<Record>
        ensures { result ≡ soa_of self }
    {
        match self {
            NetError::Dns(DnsError::NoRecordsFound(found)) => found.soa.map(Boxed::into_inner),
            _ => None,
        }
    }
}
