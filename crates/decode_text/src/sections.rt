//! Questions and records, in their order.
ghost use Rattle.std.specs.Prelude.{◌≡◌, ◌++◌, OnOk, flat_map};
ghost use Rattle.text_lines.specs.Texts.{record_lines};
ghost use Rattle.decode_text.specs.Decoded.{question_line, all_records};

use crate::lines::put_question;
use dns_core::{NoMemory, Query, Record};
use dns_wire::WireMessage;
use std::alloc::Global;
use transcript_printer::print_record;

/// The lines of questions.
pub fn put_questions(alloc: Global, questions: &[Query], out: &mut Vec<u8>) -> Result<(), NoMemory>
    ensures { OnOk result (out.new.items ≡ out.old.items ++ flat_map question_line questions.now) }
{
    for query in questions {
        put_question(alloc, query, out)?;
    }
    Ok(())
}

fn put_records(alloc: Global, records: &[Record], out: &mut Vec<u8>) -> Result<(), NoMemory>
    ensures { OnOk result (out.new.items ≡ out.old.items ++ record_lines records.now) }
{
    for entry in records {
        print_record(alloc, entry, out)?;
    }
    Ok(())
}

/// The lines of all records, section by section.
#[tactic(auto, using(transcript_printer::proofs::TextsAppended::sections))]
pub fn put_all_records(
    alloc: Global,
    message: &WireMessage,
    out: &mut Vec<u8>,
) -> Result<(), NoMemory>
    ensures { OnOk result (out.new.items ≡ out.old.items ++ record_lines (all_records message.now)) }
{
    put_records(alloc, message.answers.items(), out)?;
    put_records(alloc, message.authorities.items(), out)?;
    put_records(alloc, message.additionals.items(), out)
}
