//! Questions and messages (RFC 1035 section 4.1).

use crate::codes::{DnsClass, RecordType, ResponseCode};
use crate::name::Name;
use crate::record::Records;

/// What is asked: a name, a type and a class.
#[derive(Drop, Debug, PartialEq, Eq, PartialOrd, Ord, Hash)]
pub struct Query {
    pub name: Name,
    pub query_type: RecordType,
    pub query_class: DnsClass,
}

/// A response: the question that it answers, its code and flags, and its sections.
#[derive(Drop, Debug, PartialEq, Eq)]
pub struct Message {
    pub query: Query,
    pub response_code: ResponseCode,
    pub authoritative: bool,
    pub truncation: bool,
    pub answers: Records,
    pub authorities: Records,
    pub additionals: Records,
}
