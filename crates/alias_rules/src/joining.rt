//! What is appended to the responses of an alias chain. What a chain keeps is one message, whose answers grow.
ghost use Rattle.std.specs.Prelude.{◌≡◌, filter, OnOk, OnErr};
ghost use Rattle.resolution.specs.Answering.{is_signature_of, is_appended, joined};

use dns_core::{Items, Message, NoMemory, Query, RData, Record, RecordType, Records};
use std::alloc::Global;
use std::mem;

/// Whether a record is a signature of records of the type, or of CNAME (RFC 4034 section 3.1.1).
fn is_signature_of(r: &Record, asked: RecordType) -> bool
    ensures { result ≡ is_signature_of asked r.now }
{
    match &r.rdata {
        RData::RRSIG { covered, rest: _ } => *covered == asked || *covered == RecordType::CNAME,
        _ => false,
    }
}

fn is_appended(r: &Record, asked: RecordType) -> bool
    ensures { result ≡ is_appended asked r.now }
{
    r.record_type == asked || r.record_type == RecordType::CNAME || is_signature_of(r, asked)
}

fn keep_appended(records: &mut Vec<Record>, asked: RecordType)
    ensures { records.new.items ≡ filter (is_appended asked) records.old.items }
{
    records.retain(|r| is_appended(r, asked));
}

/// Appends what the next response of a chain answers: its records of the asked type, its CNAME records, and
/// the signatures of both.
pub fn append(
    alloc: Global,
    message: &mut Message,
    query: &Query,
    further: Message,
) -> Result<(), NoMemory>
    ensures ok { OnOk result (message.new ≡ joined message.old query.now further) }
    ensures err { OnErr result (message.new ≡ message.old) }
{
    let mut more = further.answers.into_vec();
    keep_appended(&mut more, query.query_type);
    let mut answers = mem::replace(&mut message.answers, Records::empty(alloc)).into_vec();
    let appended = answers.append(&mut more);
    message.answers = Items::new(answers);
    appended?;
    Ok(())
}
