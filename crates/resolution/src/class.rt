//! What a response is for the question that it was told for.

use dns_core::{Message, NetError, NoRecords, Record, ResponseCode};

/// What a response is for its question (RFC 2308 section 2). A response code is other than NoError
/// and NXDomain; a foreign response is one with a record of another class, the first of which it
/// names.
#[derive(Drop, Debug, PartialEq, Eq)]
pub enum Class {
    Error(NetError),
    Code(ResponseCode),
    Truncated,
    Negative(NoRecords),
    Foreign(Record),
    Positive(Message),
}
