//! A response as it reads some seconds after it was written (RFC 1035 section 3.2.1).
ghost use Rattle.std.specs.Prelude.{◌≡◌, IfOk, map};
ghost use Rattle.std.specs.Option.{option_map};
ghost use Rattle.kept_responses.specs.Lowering.{lowered_record, lowered_message, lowered_delegation, lowered_denial, lowered_error, lowered};

use dns_core::{
    Boxed, DnsError, ForwardNsData, Items, Message, NetError, NoMemory, NoRecords, Record, Records,
    TryClone,
};
use std::alloc::Global;

pub(crate) fn lowered_record(alloc: Global, r: &Record, seconds: u64) -> Result<Record, NoMemory>
    ensures { IfOk result (λ copy. copy ≡ lowered_record seconds r.now) }
{
    let ttl = u64::from(r.ttl).saturating_sub(seconds) as u32;
    let name = r.name.try_clone(alloc)?;
    let rdata = r.rdata.try_clone(alloc)?;
    Ok(Record {
        name,
        ttl,
        dns_class: r.dns_class,
        record_type: r.record_type,
        rdata,
    })
}

pub(crate) fn lowered_records(
    alloc: Global,
    rs: &[Record],
    seconds: u64,
) -> Result<Records, NoMemory>
    ensures { IfOk result (λ copies. copies ≡ map (lowered_record seconds) rs.now) }
{
    let mut copies = Vec::with_capacity(alloc, rs.len())?;
    for r in rs {
        copies.push(lowered_record(alloc, r, seconds)?)?;
    }
    Ok(Items::new(copies))
}

pub(crate) fn lowered_message(alloc: Global, m: &Message, seconds: u64) -> Result<Message, NoMemory>
    ensures { IfOk result (λ copy. copy ≡ lowered_message seconds m.now) }
{
    let query = m.query.try_clone(alloc)?;
    let answers = lowered_records(alloc, m.answers.items(), seconds)?;
    let authorities = lowered_records(alloc, m.authorities.items(), seconds)?;
    let additionals = lowered_records(alloc, m.additionals.items(), seconds)?;
    Ok(Message {
        query,
        response_code: m.response_code,
        authoritative: m.authoritative,
        truncation: m.truncation,
        answers,
        authorities,
        additionals,
    })
}

fn lowered_soa(
    alloc: Global,
    soa: &Option<Boxed<Record>>,
    seconds: u64,
) -> Result<Option<Boxed<Record>>, NoMemory>
    ensures { IfOk result (λ copy. copy ≡ option_map (lowered_record seconds) soa.now) }
{
    match soa {
        Some(soa) => {
            let lowered = lowered_record(alloc, soa.get(), seconds)?;
            Ok(Some(Boxed::new(alloc, lowered)?))
        }
        None => Ok(None),
    }
}

fn lowered_delegation(
    alloc: Global,
    delegation: &ForwardNsData,
    seconds: u64,
) -> Result<ForwardNsData, NoMemory>
    ensures { IfOk result (λ copy. copy ≡ lowered_delegation seconds delegation.now) }
{
    let ns = lowered_record(alloc, &delegation.ns, seconds)?;
    let glue = lowered_records(alloc, delegation.glue.items(), seconds)?;
    Ok(ForwardNsData { ns, glue })
}

fn lowered_all(
    alloc: Global,
    delegations: &[ForwardNsData],
    seconds: u64,
) -> Result<Items<ForwardNsData>, NoMemory>
    ensures { IfOk result (λ copies. copies ≡ map (lowered_delegation seconds) delegations.now) }
{
    let mut copies = Vec::with_capacity(alloc, delegations.len())?;
    for delegation in delegations {
        copies.push(lowered_delegation(alloc, delegation, seconds)?)?;
    }
    Ok(Items::new(copies))
}

fn lowered_delegations(
    alloc: Global,
    delegations: &Option<Items<ForwardNsData>>,
    seconds: u64,
) -> Result<Option<Items<ForwardNsData>>, NoMemory>
    ensures { IfOk result (λ copy. copy ≡ option_map (map (lowered_delegation seconds)) delegations.now) }
{
    match delegations {
        Some(delegations) => Ok(Some(lowered_all(alloc, delegations.items(), seconds)?)),
        None => Ok(None),
    }
}

fn lowered_denial(alloc: Global, found: &NoRecords, seconds: u64) -> Result<NoRecords, NoMemory>
    ensures { IfOk result (λ copy. copy ≡ lowered_denial seconds found.now) }
{
    let query = found.query.try_clone(alloc)?;
    let soa = lowered_soa(alloc, &found.soa, seconds)?;
    let ns = lowered_delegations(alloc, &found.ns, seconds)?;
    let authorities = lowered_records(alloc, found.authorities.items(), seconds)?;
    Ok(NoRecords {
        query,
        soa,
        ns,
        response_code: found.response_code,
        authorities,
    })
}

fn lowered_error(alloc: Global, error: &NetError, seconds: u64) -> Result<NetError, NoMemory>
    ensures { IfOk result (λ copy. copy ≡ lowered_error seconds error.now) }
{
    match error {
        NetError::Dns(DnsError::NoRecordsFound(found)) => {
            let found = lowered_denial(alloc, found, seconds)?;
            Ok(NetError::Dns(DnsError::NoRecordsFound(found)))
        }
        _ => error.try_clone(alloc),
    }
}

/// A response with each TTL so many seconds lower, not below 0.
pub(crate) fn lowered(
    alloc: Global,
    response: &Result<Message, NetError>,
    seconds: u64,
) -> Result<Result<Message, NetError>, NoMemory>
    ensures { IfOk result (λ copy. copy ≡ lowered seconds response.now) }
{
    match response {
        Ok(message) => Ok(Ok(lowered_message(alloc, message, seconds)?)),
        Err(error) => Ok(Err(lowered_error(alloc, error, seconds)?)),
    }
}
