//! Questions, records and messages. Each call that hands out memory stands in one place here.
ghost use Rattle.std.specs.Prelude.{IsTrue};
ghost use Rattle.dns_core.specs.Record.{is_typed};

use crate::comparing::both;
use dns_core::{
    Boxed, DnsClass, DnsRequest, DnsRequestOptions, Message, Name, NameError, NoMemory, Query,
    RData, Record, RecordType, Records, ResponseCode, Soa,
};
use std::alloc::Global;
use std::net::{IpAddr, Ipv4Addr};

/// The address 11.0.0 with a last octet.
pub fn v4(last: u8) -> Ipv4Addr {
    Ipv4Addr::new(11, 0, 0, last)
}

pub fn ip(last: u8) -> IpAddr {
    IpAddr::V4(v4(last))
}

pub fn domain(alloc: Global, text: &str) -> Result<Name, NameError> {
    Name::parse(alloc, text)
}

pub fn query_of(
    alloc: Global,
    name: &str,
    query_type: RecordType,
    query_class: DnsClass,
) -> Result<Query, NameError> {
    Ok(Query {
        name: Name::parse(alloc, name)?,
        query_type,
        query_class,
    })
}

/// The question for the addresses of a name.
pub fn query(alloc: Global, name: &str) -> Result<Query, NameError> {
    query_of(alloc, name, RecordType::A, DnsClass::IN)
}

/// The same with or without DNSSEC records.
pub fn request(alloc: Global, name: &str, dnssec: bool) -> Result<DnsRequest, NameError> {
    let mut options = DnsRequestOptions::standard();
    options.edns_set_dnssec_ok = dnssec;
    Ok(DnsRequest {
        query: query(alloc, name)?,
        options,
    })
}

/// A record of a name, with a TTL.
pub fn record(
    alloc: Global,
    owner: &str,
    ttl: u32,
    record_type: RecordType,
    rdata: RData,
) -> Result<Record, NameError>
    requires { IsTrue (is_typed record_type rdata) }
{
    Ok(Record {
        name: Name::parse(alloc, owner)?,
        ttl,
        dns_class: DnsClass::IN,
        record_type,
        rdata,
    })
}

pub fn address(alloc: Global, owner: &str, ttl: u32, ip: Ipv4Addr) -> Result<Record, NameError> {
    record(alloc, owner, ttl, RecordType::A, RData::A(ip))
}

pub fn name_server(alloc: Global, zone: &str, target: &str) -> Result<Record, NameError> {
    let target = Name::parse(alloc, target)?;
    record(alloc, zone, 172_800, RecordType::NS, RData::NS(target))
}

pub fn alias(alloc: Global, owner: &str, target: &str) -> Result<Record, NameError> {
    let target = Name::parse(alloc, target)?;
    record(alloc, owner, 60, RecordType::CNAME, RData::CNAME(target))
}

pub fn soa(alloc: Global, server: &str) -> Result<Soa, NameError> {
    let names = both(Name::parse(alloc, server), Name::parse(alloc, "r."));
    let (mname, rname) = names?;
    Ok(Soa {
        mname,
        rname,
        serial: 1,
        refresh: 2,
        retry: 3,
        expire: 4,
        minimum: 5,
    })
}

/// The authority of a zone with this server.
pub fn authority(alloc: Global, zone: &str, server: &str) -> Result<Record, NameError> {
    let soa = Boxed::new(alloc, soa(alloc, server)?)?;
    record(alloc, zone, 60, RecordType::SOA, RData::SOA(soa))
}

/// The records of a section that has one.
pub fn one(alloc: Global, record: Record) -> Result<Records, NoMemory> {
    let mut records = Records::empty(alloc);
    records.push(record)?;
    Ok(records)
}

/// A response to a question, with these sections.
pub fn response(
    query: Query,
    response_code: ResponseCode,
    answers: Records,
    authorities: Records,
    additionals: Records,
) -> Message {
    Message {
        query,
        response_code,
        authoritative: !answers.is_empty(),
        truncation: false,
        answers,
        authorities,
        additionals,
    }
}

/// The answer to the question for the addresses of a name.
pub fn answer(alloc: Global, owner: &str, ttl: u32, ip: Ipv4Addr) -> Result<Message, NameError> {
    let query = query(alloc, owner)?;
    let answers = one(alloc, address(alloc, owner, ttl, ip)?)?;
    let none = Records::empty(alloc);
    let code = ResponseCode::NoError;
    Ok(response(query, code, answers, none, Records::empty(alloc)))
}

/// The answer for `a.`, cut or whole.
pub fn message(alloc: Global, truncation: bool) -> Result<Message, NameError> {
    let mut message = answer(alloc, "a.", 300, v4(7))?;
    message.truncation = truncation;
    Ok(message)
}

/// The referral of a zone to a server with this address.
pub fn referral(
    alloc: Global,
    zone: &str,
    server: &str,
    ip: Ipv4Addr,
) -> Result<Message, NameError> {
    let query = query_of(alloc, zone, RecordType::NS, DnsClass::IN)?;
    let authorities = one(alloc, name_server(alloc, zone, server)?)?;
    let additionals = one(alloc, address(alloc, server, 172_800, ip)?)?;
    let none = Records::empty(alloc);
    let code = ResponseCode::NoError;
    Ok(response(query, code, none, authorities, additionals))
}
