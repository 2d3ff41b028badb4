//! Records: a name, a life, a class and data of a type (RFC 1035 section 3.2.1).
ghost use Rattle.std.specs.Prelude.{IsTrue};
ghost use Rattle.dns_core.specs.Record.{is_typed};

use crate::boxed::Boxed;
use crate::codes::{DnsClass, RecordType};
use crate::items::{Bytes, Items};
use crate::name::Name;
use std::net::{Ipv4Addr, Ipv6Addr};

/// Records, in an order.
pub type Records = Items<Record>;

/// The data of an SOA record (RFC 1035 section 3.3.13). The intervals are in seconds.
#[derive(Drop, Debug, PartialEq, Eq)]
pub struct Soa {
    pub mname: Name,
    pub rname: Name,
    pub serial: u32,
    pub refresh: u32,
    pub retry: u32,
    pub expire: u32,
    pub minimum: u32,
}

/// The data of a record. `Opaque` holds the data of every type that no other variant has.
#[derive(Drop, Debug, PartialEq, Eq)]
pub enum RData {
    A(Ipv4Addr),
    AAAA(Ipv6Addr),
    NS(Name),
    CNAME(Name),
    SOA(Boxed<Soa>),
    RRSIG { covered: RecordType, rest: Bytes },
    Opaque(Bytes),
}

/// A record. Its type is that of its data; its TTL is in seconds.
#[derive(Debug, PartialEq, Eq)]
pub struct Record {
    pub name: Name,
    pub ttl: u32,
    pub dns_class: DnsClass,
    pub record_type: RecordType,
    pub rdata: RData,
    pub ghost typed: { IsTrue (is_typed record_type rdata) },
}

impl Drop for Record {
    fn drop(self) {
        let Record {
            name: _,
            ttl: _,
            dns_class: _,
            record_type: _,
            rdata: _,
        } = self;
    }
}

impl Record {
    ghost use Rattle.std.specs.Prelude.{◌≡◌};

    /// Its name, which is all that is left of it.
    pub fn into_name(self) -> Name
        ensures { result ≡ self.name }
    {
        let Record {
            name,
            ttl: _,
            dns_class: _,
            record_type: _,
            rdata: _,
        } = self;
        name
    }
}
