//! Values of all types that are copied, with all that each may hold.

use dns_core::{
    Boxed, Bytes, ConnectOptions, ConnectionConfig, DnsClass, DnsError, ForwardNsData, Items,
    LogEntry, Message, Name, NameError, NetError, NoMemory, NoRecords, Protocol, ProtocolConfig,
    Question, RData, Record, RecordType, Records, ResponseCode, Text, ToldOutcome,
};
use server_core::Order;
use std::alloc::Global;
use std::net::Ipv6Addr;
use tests_samples::{
    address, alias, authority, both, ip, name_server, put, query, record, request, v4,
};

fn wide_address(alloc: Global) -> Result<Record, NameError> {
    let rdata = RData::AAAA(Ipv6Addr::LOCALHOST);
    record(alloc, "a.", 60, RecordType::AAAA, rdata)
}

fn opaque(alloc: Global) -> Result<Record, NameError> {
    let rdata = RData::Opaque(Bytes::empty(alloc));
    record(alloc, "a.", 60, RecordType::TXT, rdata)
}

/// A signature of class CH.
pub fn signature(alloc: Global) -> Result<Record, NameError> {
    let mut rest = Bytes::empty(alloc);
    rest.push(0x0f)?;
    rest.push(0xa0)?;
    Ok(Record {
        name: Name::parse(alloc, "a.")?,
        ttl: 4_294_967_295,
        dns_class: DnsClass::CH,
        record_type: RecordType::RRSIG,
        rdata: RData::RRSIG {
            covered: RecordType::A,
            rest,
        },
    })
}

fn put_addresses(alloc: Global, to: &mut Records) -> Result<(), NameError> {
    put(to, address(alloc, "a.", 60, v4(7)))?;
    put(to, wide_address(alloc))
}

pub fn addresses(alloc: Global) -> Result<Records, NameError> {
    let mut records = Records::empty(alloc);
    put_addresses(alloc, &mut records)?;
    Ok(records)
}

fn put_others(alloc: Global, to: &mut Records) -> Result<(), NameError> {
    put(to, name_server(alloc, "a.", "n."))?;
    put(to, alias(alloc, "a.", "b."))?;
    put(to, opaque(alloc))?;
    put(to, signature(alloc))?;
    put(to, authority(alloc, "a.", "m."))
}

/// Records of the other kinds of data.
pub fn others(alloc: Global) -> Result<Records, NameError> {
    let mut records = Records::empty(alloc);
    put_others(alloc, &mut records)?;
    Ok(records)
}

/// A response for `a.` with records of each kind.
pub fn message(alloc: Global) -> Result<Message, NameError> {
    let sections = both(addresses(alloc), others(alloc));
    let (query, (answers, authorities)) = both(query(alloc, "a."), sections)?;
    Ok(Message {
        query,
        response_code: ResponseCode::NoError,
        authoritative: true,
        truncation: false,
        answers,
        authorities,
        additionals: Records::empty(alloc),
    })
}

pub fn forward(alloc: Global) -> Result<ForwardNsData, NameError> {
    let (ns, glue) = both(name_server(alloc, "a.", "n."), addresses(alloc))?;
    Ok(ForwardNsData { ns, glue })
}

fn forwards(alloc: Global) -> Result<Items<ForwardNsData>, NameError> {
    let mut forwards = Items::empty(alloc);
    put(&mut forwards, forward(alloc))?;
    Ok(forwards)
}

/// That `a.` does not exist, with all that a denial may tell.
pub fn no_records(alloc: Global) -> Result<NoRecords, NameError> {
    let told = both(authority(alloc, "a.", "m."), query(alloc, "a."));
    let more = both(forwards(alloc), others(alloc));
    let ((soa, query), (ns, authorities)) = both(told, more)?;
    Ok(NoRecords {
        query,
        soa: Some(Boxed::new(alloc, soa)?),
        ns: Some(ns),
        response_code: ResponseCode::NXDomain,
        authorities,
    })
}

pub fn denial(alloc: Global) -> Result<NetError, NameError> {
    Ok(NetError::Dns(DnsError::NoRecordsFound(no_records(alloc)?)))
}

pub fn foreign(alloc: Global) -> Result<NetError, NameError> {
    Ok(NetError::ForeignClassRecord {
        record_name: Name::parse(alloc, "a.")?,
        record_class: DnsClass::CH,
        record_type: RecordType::A,
    })
}

pub fn text(alloc: Global) -> Result<Text, NoMemory> {
    Ok(Text::new(String::from_str(alloc, "ns.example")?))
}

/// A message is told.
pub fn told(alloc: Global) -> Result<LogEntry, NameError> {
    let message = message(alloc)?;
    Ok(LogEntry::Told {
        of: 2,
        moment: 3,
        outcome: ToldOutcome::Message(message),
    })
}

/// A question that was refused with a denial.
pub fn asked(alloc: Global) -> Result<LogEntry, NameError> {
    let (query, refused) = both(query(alloc, "a."), denial(alloc))?;
    Ok(LogEntry::Asked {
        ip: ip(1),
        protocol: Protocol::Udp,
        query,
        moment: 2,
        refused: Some(refused),
    })
}

/// A way to connect of a protocol, from an address and a port.
pub fn config(protocol: ProtocolConfig) -> ConnectionConfig {
    ConnectionConfig {
        port: 853,
        protocol,
        bind_addr: Some((ip(1), 7)),
    }
}

pub fn connect_options(alloc: Global) -> Result<ConnectOptions, NameError> {
    let mut avoided = Items::empty(alloc);
    avoided.push(5353)?;
    Ok(ConnectOptions {
        timeout: 5_000_000,
        max_active_requests: 32,
        case_randomization: true,
        os_port_selection: false,
        avoid_local_udp_ports: avoided,
    })
}

pub fn question(alloc: Global) -> Result<Question, NameError> {
    Ok(Question {
        query: query(alloc, "a.")?,
        dnssec_ok: true,
    })
}

/// A question is to be asked.
pub fn ask(alloc: Global) -> Result<Order, NameError> {
    Ok(Order::Ask {
        conn: 1,
        ip: ip(1),
        protocol: Protocol::Udp,
        request: request(alloc, "a.", false)?,
    })
}
