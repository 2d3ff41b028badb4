//! What an OPT record says (RFC 6891 section 6.1.2).

use dns_core::{Bytes, Record};

/// What an OPT record says but for the upper bits of the code.
#[derive(Drop, Debug)]
pub struct Edns {
    pub payload: u16,
    pub version: u8,
    pub dnssec_ok: bool,
    pub options: Bytes,
}

/// A record of the additional section: one with data, or the OPT record with the upper bits of the code.
#[derive(Drop, Debug)]
pub enum Extra {
    Plain(Record),
    Opt(u8, Edns),
}
