//! The sections of a message: so many questions or records, one after the other.
ghost use Rattle.std.specs.Prelude.{◌≡◌, ◌++◌, None, IfOk, OnOk};
ghost use Rattle.wire_names.specs.Kept.{IsRest, AreKept};
ghost use Rattle.wire_names.specs.Reading.{Gives};
ghost use Rattle.wire_records.specs.Reading.{question_of, record_of};
ghost use Rattle.wire_records.specs.Records.{plain_of};
ghost use Rattle.wire_records.specs.Sections.{in_turn, told_after, extras_of};

use crate::edns::{Edns, Extra};
use crate::questions::read_question;
use crate::records::{read_extra, read_record};
use dns_core::{NoMemory, Query, Record};
use std::alloc::Global;
use wire_names::{KeptNames, WireError};

/// The first `count` questions of `bytes`, a rest of the message, and what follows them.
pub fn read_questions<'a>(
    alloc: Global,
    message: &[u8],
    count: u16,
    bytes: &'a [u8],
    kept: &mut KeptNames,
) -> Result<(Vec<Query>, &'a [u8]), WireError>
    requires rest { IsRest message.now bytes.now }
    requires kept { AreKept message.now kept.old }
    ensures exact { Gives (λ x. (x.0.items, x.1.now)) result (in_turn question_of count message.now bytes.now) }
    ensures rest { IfOk result (λ x. IsRest message.now x.1.now) }
    ensures kept { AreKept message.now kept.new }
{
    let mut questions = Vec::new(alloc);
    let mut rest = bytes;
    let mut left = count;
    'questions: while left > 0 {
        let (question, after) = read_question(alloc, message, rest, kept)?;
        questions.push(question)?;
        rest = after;
        left -= 1;
    }
    Ok((questions, rest))
}

/// The first `count` records of a section that has no OPT record, and what follows them.
pub fn read_records<'a>(
    alloc: Global,
    message: &[u8],
    count: u16,
    bytes: &'a [u8],
    kept: &mut KeptNames,
) -> Result<(Vec<Record>, &'a [u8]), WireError>
    requires rest { IsRest message.now bytes.now }
    requires kept { AreKept message.now kept.old }
    ensures exact { Gives (λ x. (x.0.items, x.1.now)) result (in_turn record_of count message.now bytes.now) }
    ensures rest { IfOk result (λ x. IsRest message.now x.1.now) }
    ensures kept { AreKept message.now kept.new }
{
    let mut records = Vec::new(alloc);
    let mut rest = bytes;
    let mut left = count;
    'records: while left > 0 {
        let (record, after) = read_record(alloc, message, rest, kept)?;
        records.push(record)?;
        rest = after;
        left -= 1;
    }
    Ok((records, rest))
}

/// Adds a record of the additional section to those with data, or keeps what an OPT record says.
fn add_extra(
    records: &mut Vec<Record>,
    told: &mut Option<(u8, Edns)>,
    extra: Extra,
) -> Result<(), NoMemory>
    ensures records { OnOk result (records.new.items ≡ records.old.items ++ plain_of extra) }
    ensures told { OnOk result (told.new ≡ told_after told.old extra) }
{
    match extra {
        Extra::Plain(plain) => records.push(plain)?,
        Extra::Opt(upper, edns) => *told = Some((upper, edns)),
    }
    Ok(())
}

/// The first `count` records of the additional section: those with data, what an OPT record says, and what
/// follows them.
pub fn read_extras<'a>(
    alloc: Global,
    message: &[u8],
    count: u16,
    bytes: &'a [u8],
    kept: &mut KeptNames,
) -> Result<(Vec<Record>, Option<(u8, Edns)>, &'a [u8]), WireError>
    requires rest { IsRest message.now bytes.now }
    requires kept { AreKept message.now kept.old }
    ensures exact { Gives (λ x. ((x.0.items, x.1), x.2.now)) result (extras_of count None message.now bytes.now) }
    ensures rest { IfOk result (λ x. IsRest message.now x.2.now) }
    ensures kept { AreKept message.now kept.new }
{
    let mut records = Vec::new(alloc);
    let mut told = None;
    let mut rest = bytes;
    let mut left = count;
    'extras: while left > 0 {
        let (extra, after) = read_extra(alloc, message, told.is_some(), rest, kept)?;
        add_extra(&mut records, &mut told, extra)?;
        rest = after;
        left -= 1;
    }
    Ok((records, told, rest))
}
