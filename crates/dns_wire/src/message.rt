//! A message as it stands on the wire.

use dns_core::{Items, Query, Records};
use wire_records::Edns;

/// A message. `code` has the four bits of the header, and above them the eight of an OPT record.
#[derive(Drop, Debug)]
pub struct WireMessage {
    pub id: u16,
    pub response: bool,
    pub opcode: u8,
    pub authoritative: bool,
    pub truncation: bool,
    pub recursion_desired: bool,
    pub recursion_available: bool,
    pub authentic: bool,
    pub checking: bool,
    pub code: u16,
    pub questions: Items<Query>,
    pub answers: Records,
    pub authorities: Records,
    pub additionals: Records,
    pub edns: Option<Edns>,
}
