//! Worlds: a tree of zones, and the hosts that serve them.

use dns_core::{Items, Name, Records};
use std::net::IpAddr;

/// A zone: its apex and its records, in an order.
#[derive(Drop, Debug)]
pub struct Zone {
    pub apex: Name,
    pub records: Records,
}

/// An address, and the numbers of the zones that it serves. Zones are numbered from 1.
#[derive(Drop, Debug)]
pub struct Host {
    pub ip: IpAddr,
    pub zones: Items<u32>,
}

/// A tree of zones with its hosts. With `chain`, an answer follows the aliases inside a zone. Each
/// question waits for `delay` polls.
#[derive(Debug)]
pub struct World {
    pub zones: Items<Zone>,
    pub hosts: Items<Host>,
    pub chain: bool,
    pub delay: u32,
}

impl Drop for World {
    fn drop(self) {
        let World {
            zones: _,
            hosts: _,
            chain: _,
            delay: _,
        } = self;
    }
}

/// What a world answers to a question.
#[derive(Drop, Debug)]
pub enum WorldAnswer {
    Records(Records),
    NxDomain,
    NoData,
}
