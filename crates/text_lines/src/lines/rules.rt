//! Rules of a script while their records are read.

use dns_core::{Message, Protocol, ResponseCode};
use std::net::IpAddr;

/// How many records of each section are still to come.
#[derive(Clone, Copy)]
pub struct Counts {
    pub answers: u32,
    pub authorities: u32,
    pub additionals: u32,
}

/// What the line of a message says of it: all but its question and its records.
#[derive(Clone, Copy)]
pub struct MessageHead {
    pub response_code: ResponseCode,
    pub authoritative: bool,
    pub truncation: bool,
    pub owed: Counts,
}

/// A rule that tells a message, some of whose records are still to come.
#[derive(Drop)]
pub struct OpenRule {
    pub ip: IpAddr,
    pub protocol: Protocol,
    pub delay: u32,
    pub message: Message,
    pub owed: Counts,
}
