//! The lines of a script as text, with numbers for words.

use crate::values::{put_bytes, put_ip, put_name, put_narrow, put_wide};
use dns_core::{IoKind, Message, NetError, NoMemory, Protocol, RData, Record, RecordType, Soa};
use script_upstream::ScriptLine;
use std::alloc::Global;
use std::fmt::Write;
use std::net::IpAddr;

fn protocol_text(protocol: Protocol) -> &'static str {
    match protocol {
        Protocol::Udp => "Udp",
        Protocol::Tcp => "Tcp",
        Protocol::Tls => "Tls",
        Protocol::Https => "Https",
        Protocol::Quic => "Quic",
        Protocol::H3 => "H3",
    }
}

/// The name of an error of transport.
fn error_text(error: &NetError) -> &'static str {
    match error {
        NetError::Busy => "Busy",
        NetError::Io(IoKind::Refused) => "Io Refused",
        NetError::Io(IoKind::Closed) => "Io Closed",
        NetError::Io(IoKind::Other) => "Io Other",
        NetError::Timeout => "Timeout",
        NetError::NoConnections => "NoConnections",
        NetError::QueryCaseMismatch => "QueryCaseMismatch",
        _ => "another error",
    }
}

fn put_soa(alloc: Global, out: &mut String, soa: &Soa) -> Result<(), NoMemory> {
    put_name(alloc, out, &soa.mname)?;
    put_name(alloc, out, &soa.rname)?;
    let (serial, refresh, retry) = (soa.serial, soa.refresh, soa.retry);
    let (expire, minimum) = (soa.expire, soa.minimum);
    write!(out, " {serial} {refresh} {retry} {expire} {minimum}")?;
    Ok(())
}

fn put_signature(out: &mut String, covered: RecordType, rest: &[u8]) -> Result<(), NoMemory> {
    let kind = covered.code;
    write!(out, " {kind}")?;
    put_bytes(out, rest)
}

fn put_data(alloc: Global, out: &mut String, data: &RData) -> Result<(), NoMemory> {
    match data {
        RData::A(ip) => put_narrow(out, *ip),
        RData::AAAA(ip) => put_wide(out, *ip),
        RData::NS(name) => put_name(alloc, out, name),
        RData::CNAME(name) => put_name(alloc, out, name),
        RData::SOA(soa) => put_soa(alloc, out, soa.get()),
        RData::RRSIG { covered, rest } => put_signature(out, *covered, rest.items()),
        RData::Opaque(bytes) => put_bytes(out, bytes.items()),
    }
}

fn form_of(data: &RData) -> &'static str {
    match data {
        RData::A(_) => "A",
        RData::AAAA(_) => "AAAA",
        RData::NS(_) => "NS",
        RData::CNAME(_) => "CNAME",
        RData::SOA(_) => "SOA",
        RData::RRSIG { .. } => "RRSIG",
        RData::Opaque(_) => "bytes",
    }
}

fn put_record(
    alloc: Global,
    out: &mut String,
    section: &str,
    record: &Record,
) -> Result<(), NoMemory> {
    out.push_str(section)?;
    put_name(alloc, out, &record.name)?;
    let (ttl, class, kind) = (record.ttl, record.dns_class.code, record.record_type.code);
    let form = form_of(&record.rdata);
    write!(out, " ttl {ttl} class {class} type {kind} {form}")?;
    put_data(alloc, out, &record.rdata)?;
    out.push_str("\n")?;
    Ok(())
}

fn put_records(
    alloc: Global,
    out: &mut String,
    section: &str,
    records: &[Record],
) -> Result<(), NoMemory> {
    for record in records {
        put_record(alloc, out, section, record)?;
    }
    Ok(())
}

fn put_message(alloc: Global, out: &mut String, message: &Message) -> Result<(), NoMemory> {
    let (code, aa, tc) = (
        message.response_code.code,
        message.authoritative,
        message.truncation,
    );
    let kind = message.query.query_type.code;
    writeln!(out, " message for type {kind} code {code} aa {aa} tc {tc}")?;
    put_records(alloc, out, "answer", message.answers.items())?;
    put_records(alloc, out, "authority", message.authorities.items())?;
    put_records(alloc, out, "additional", message.additionals.items())
}

fn put_endpoint(
    out: &mut String,
    word: &str,
    ip: IpAddr,
    protocol: Protocol,
) -> Result<(), NoMemory> {
    out.push_str(word)?;
    put_ip(out, ip)?;
    let by = protocol_text(protocol);
    write!(out, " {by}")?;
    Ok(())
}

fn put_connect(out: &mut String, delay: u32, error: &Option<NetError>) -> Result<(), NoMemory> {
    let end = match error {
        None => "connected",
        Some(error) => error_text(error),
    };
    writeln!(out, " delay {delay} {end}")?;
    Ok(())
}

fn put_outcome(
    alloc: Global,
    out: &mut String,
    outcome: &Result<Message, NetError>,
) -> Result<(), NoMemory> {
    match outcome {
        Ok(message) => put_message(alloc, out, message),
        Err(error) => {
            let end = error_text(error);
            writeln!(out, " {end}")?;
            Ok(())
        }
    }
}

/// Writes what a line of a script says.
pub fn put_rule(alloc: Global, out: &mut String, rule: &ScriptLine) -> Result<(), NoMemory> {
    match rule {
        ScriptLine::Connect {
            ip,
            protocol,
            delay,
            error,
        } => {
            put_endpoint(out, "connect", *ip, *protocol)?;
            put_connect(out, *delay, error)
        }
        ScriptLine::Refuse { ip, protocol } => {
            put_endpoint(out, "refuse", *ip, *protocol)?;
            out.push_str("\n")?;
            Ok(())
        }
        ScriptLine::Reply {
            ip,
            protocol,
            name,
            query_type,
            delay,
            outcome,
        } => {
            put_endpoint(out, "reply", *ip, *protocol)?;
            put_name(alloc, out, name)?;
            let (kind, delay) = (query_type.code, *delay);
            write!(out, " type {kind} delay {delay}")?;
            put_outcome(alloc, out, outcome)
        }
    }
}
