//! A kept message, copied once as it is to be answered later.
ghost use Rattle.std.specs.Prelude.{◌≡◌, IfOk, map, filter, List, if◌then◌else◌};
ghost use Rattle.dns_core.specs.declared.record.Record.{Record};
ghost use Rattle.dns_core.specs.Stripping.{is_kept, strip_of};
ghost use Rattle.kept_responses.specs.Lowering.{lowered_record, lowered_message};

use crate::lowering::{lowered_record, lowered_records};
use dns_core::{Items, Message, NoMemory, Record, RecordType, Records, TryClone};
use std::alloc::Global;

/// Whether a record stays where DNSSEC records leave (RFC 4035 section 3.2.1).
fn stays(r: &Record, asked: RecordType) -> bool
    ensures { result ≡ is_kept asked r.now }
{
    !r.record_type.is_dnssec() || r.record_type == asked
}

fn staying_records(
    alloc: Global,
    rs: &[Record],
    asked: RecordType,
    seconds: u64,
) -> Result<Records, NoMemory>
    ensures { IfOk result (λ copies. copies ≡ filter (is_kept asked) (map (lowered_record seconds) rs.now)) }
{
    let mut copies = Vec::with_capacity(alloc, rs.len())?;
    for r in rs {
        if stays(r, asked) {
            copies.push(lowered_record(alloc, r, seconds)?)?;
        }
    }
    Ok(Items::new(copies))
}

fn read_records(
    alloc: Global,
    rs: &[Record],
    asked: RecordType,
    seconds: u64,
    dnssec_ok: bool,
) -> Result<Records, NoMemory>
    ensures { IfOk result (λ copies. copies ≡ (let read : List Record = map (lowered_record seconds) rs.now in if dnssec_ok then read else filter (is_kept asked) read)) }
{
    if dnssec_ok {
        lowered_records(alloc, rs, seconds)
    } else {
        staying_records(alloc, rs, asked, seconds)
    }
}

/// A message as it reads so many seconds after it was written, without the DO flag less the DNSSEC
/// records that were not asked for.
pub fn read_message(
    alloc: Global,
    message: &Message,
    seconds: u64,
    dnssec_ok: bool,
) -> Result<Message, NoMemory>
    ensures { IfOk result (λ copy. copy ≡ strip_of (lowered_message seconds message.now) dnssec_ok) }
{
    let asked = message.query.query_type;
    let answers = read_records(alloc, message.answers.items(), asked, seconds, dnssec_ok)?;
    let authorities = read_records(
        alloc,
        message.authorities.items(),
        asked,
        seconds,
        dnssec_ok,
    )?;
    let additionals = read_records(
        alloc,
        message.additionals.items(),
        asked,
        seconds,
        dnssec_ok,
    )?;
    Ok(Message {
        query: message.query.try_clone(alloc)?,
        response_code: message.response_code,
        authoritative: message.authoritative,
        truncation: message.truncation,
        answers,
        authorities,
        additionals,
    })
}
