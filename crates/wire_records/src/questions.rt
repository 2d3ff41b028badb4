//! Questions (RFC 1035 section 4.1.2).
ghost use Rattle.std.specs.Prelude.{IfOk};
ghost use Rattle.wire_names.specs.Kept.{IsRest, AreKept};
ghost use Rattle.wire_names.specs.Reading.{Gives};
ghost use Rattle.wire_records.specs.Reading.{question_of};

use crate::numbers::read_two;
use dns_core::{DnsClass, Query, RecordType};
use std::alloc::Global;
use wire_names::{KeptNames, WireError, read_name};

/// The question at the front of `bytes`, a rest of the message, and what follows it.
pub fn read_question<'a>(
    alloc: Global,
    message: &[u8],
    bytes: &'a [u8],
    kept: &mut KeptNames,
) -> Result<(Query, &'a [u8]), WireError>
    requires rest { IsRest message.now bytes.now }
    requires kept { AreKept message.now kept.old }
    ensures exact { Gives (λ x. (x.0, x.1.now)) result (question_of message.now bytes.now) }
    ensures rest { IfOk result (λ x. IsRest message.now x.1.now) }
    ensures kept { AreKept message.now kept.new }
{
    let (name, after) = read_name(alloc, message, bytes, kept)?;
    let (query_type, after) = read_two(after)?;
    let (query_class, rest) = read_two(after)?;
    let query = Query {
        name,
        query_type: RecordType { code: query_type },
        query_class: DnsClass { code: query_class },
    };
    Ok((query, rest))
}
