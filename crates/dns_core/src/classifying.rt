//! What a response is: itself, or an error (RFC 2308 section 2).
ghost use Rattle.std.specs.Prelude.{◌≡◌, filter, find, IfOk};
ghost use Rattle.std.specs.List.{list_any};
ghost use Rattle.dns_core.specs.Classifying.{is_asked, is_ns, is_soa, is_glue_for, glue_of, delegations, has_no_data, no_records, classify_of};

use crate::boxed::Boxed;
use crate::copies::TryClone;
use crate::errors::NoMemory;
use crate::items::Items;
use crate::message::{Message, Query};
use crate::name::Name;
use crate::net_error::{DnsError, ForwardNsData, NoRecords};
use crate::record::{RData, Record};
use std::alloc::Global;

fn is_asked(r: &Record, query: &Query) -> bool
    ensures { result ≡ is_asked query.now r.now }
{
    r.record_type == query.query_type && r.name == query.name
}

fn any_asked(records: &[Record], query: &Query) -> bool
    ensures { result ≡ list_any (is_asked query.now) records.now }
{
    records.iter().any(|r| is_asked(r, query))
}

fn has_no_data(m: &Message) -> bool
    ensures { result ≡ has_no_data m.now }
{
    m.answers.items().is_empty()
        && !any_asked(m.authorities.items(), &m.query)
        && !any_asked(m.additionals.items(), &m.query)
}

fn is_soa(r: &Record) -> bool
    ensures { result ≡ is_soa r.now }
{
    match &r.rdata {
        RData::SOA(_) => true,
        _ => false,
    }
}

fn is_ns(r: &Record) -> bool
    ensures { result ≡ is_ns r.now }
{
    match &r.rdata {
        RData::NS(_) => true,
        _ => false,
    }
}

fn is_glue_for(r: &Record, target: &Name) -> bool
    ensures { result ≡ is_glue_for target.now r.now }
{
    match &r.rdata {
        RData::A(_) | RData::AAAA(_) => r.name == *target,
        _ => false,
    }
}

fn first_soa(alloc: Global, records: &[Record]) -> Result<Option<Boxed<Record>>, NoMemory>
    ensures { IfOk result (λ found. found ≡ find is_soa records.now) }
{
    for r in records {
        if is_soa(r) {
            let copy = r.try_clone(alloc)?;
            return Ok(Some(Boxed::new(alloc, copy)?));
        }
    }
    Ok(None)
}

fn glue_records(
    alloc: Global,
    additionals: &[Record],
    target: &Name,
) -> Result<Vec<Record>, NoMemory>
    ensures { IfOk result (λ glue. glue.items ≡ filter (is_glue_for target.now) additionals.now) }
{
    let mut glue = Vec::new(alloc);
    for r in additionals {
        if is_glue_for(r, target) {
            glue.push(r.try_clone(alloc)?)?;
        }
    }
    Ok(glue)
}

fn delegations(
    alloc: Global,
    authorities: &[Record],
    additionals: &[Record],
) -> Result<Vec<ForwardNsData>, NoMemory>
    ensures { IfOk result (λ found. found.items ≡ delegations authorities.now additionals.now) }
{
    let mut found = Vec::new(alloc);
    for r in authorities {
        if let RData::NS(target) = &r.rdata {
            let glue = glue_records(alloc, additionals, target)?;
            let ns = r.try_clone(alloc)?;
            found.push(ForwardNsData {
                ns,
                glue: Items::new(glue),
            })?;
        }
    }
    Ok(found)
}

fn no_records(alloc: Global, m: Message) -> Result<NoRecords, NoMemory>
    ensures { IfOk result (λ found. found ≡ no_records m) }
{
    let soa = first_soa(alloc, m.authorities.items())?;
    let found = delegations(alloc, m.authorities.items(), m.additionals.items())?;
    let ns = if found.is_empty() {
        None
    } else {
        Some(Items::new(found))
    };
    Ok(NoRecords {
        query: m.query,
        soa,
        ns,
        response_code: m.response_code,
        authorities: m.authorities,
    })
}

/// What a response is: itself, or an error. A response without answers, and without a record of the
/// asked type named as the question in any section, is `NoRecordsFound`.
pub fn classify(alloc: Global, message: Message) -> Result<Result<Message, DnsError>, NoMemory>
    ensures { IfOk result (λ class. class ≡ classify_of message) }
{
    if message.response_code.code != 0 && message.response_code.code != 3 {
        return Ok(Err(DnsError::ResponseCode(message.response_code)));
    }
    if message.truncation {
        return Ok(Ok(message));
    }
    if has_no_data(&message) {
        let found = no_records(alloc, message)?;
        return Ok(Err(DnsError::NoRecordsFound(found)));
    }
    Ok(Ok(message))
}
