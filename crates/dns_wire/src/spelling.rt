//! A message written out, without pointers, part by part.
ghost use Rattle.std.specs.Prelude.{◌≡◌, ◌≤◌, ◌<◌, ◌+◌, ◌++◌, false, length, OnOk};
ghost use Rattle.std.specs.List.{All, flat_map};
ghost use Rattle.wire_records.specs.Records.{bit};
ghost use Rattle.wire_records.specs.Spelling.{spelled_question, spelled_record, FitQuestion, FitRecord};
ghost use Rattle.dns_wire.specs.Spelling.{upper_flags, spelled_edns, edns_count, spelled_counts, spelled_header, spelled_sections, spelled, CanSpell, FitMessage};
ghost use Rattle.dns_wire.specs.Wire.{flags};

use crate::message::WireMessage;
use dns_core::{NoMemory, Query, Record};
use wire_records::{Edns, data_length, write_opt, write_question, write_record, write_two};

fn write_questions(out: &mut Vec<u8>, questions: &[Query]) -> Result<(), NoMemory>
    ensures ok { OnOk result (out.new.items ≡ out.old.items ++ flat_map spelled_question questions.now) }
    ensures fit { OnOk result (All FitQuestion questions.now) }
{
    for query in questions {
        write_question(out, query)?;
    }
    Ok(())
}

fn write_records(out: &mut Vec<u8>, records: &[Record]) -> Result<(), NoMemory>
    requires { length (flat_map spelled_record records.now) ≤ 65535 }
    ensures ok { OnOk result (out.new.items ≡ out.old.items ++ flat_map spelled_record records.now) }
    ensures fit { OnOk result (All FitRecord records.now) }
{
    for plain in records {
        let count = data_length(&plain.rdata);
        write_record(out, plain, count)?;
    }
    Ok(())
}

fn write_edns(out: &mut Vec<u8>, upper: u8, edns: &Option<Edns>) -> Result<(), NoMemory>
    requires { length (spelled_edns upper edns.now) ≤ 65535 }
    ensures { OnOk result (out.new.items ≡ out.old.items ++ spelled_edns upper edns.now) }
{
    match edns {
        Some(edns) => write_opt(out, upper, edns),
        None => Ok(()),
    }
}

fn write_sections(out: &mut Vec<u8>, message: &WireMessage) -> Result<(), NoMemory>
    requires code { message.now.code < 4096 }
    requires few { length (spelled_sections message.now) ≤ 65535 }
    ensures ok { OnOk result (out.new.items ≡ out.old.items ++ spelled_sections message.now) }
    ensures fit { OnOk result (FitMessage message.now) }
{
    write_questions(out, message.questions.items())?;
    write_records(out, message.answers.items())?;
    write_records(out, message.authorities.items())?;
    write_records(out, message.additionals.items())?;
    write_edns(out, (message.code / 16) as u8, &message.edns)
}

fn bit_of(set: bool) -> u16
    ensures is { result ≡ bit set }
    ensures few { result < 2 }
{
    if set { 1 } else { 0 }
}

/// The flags above the bit that is ignored.
fn upper_flags(message: &WireMessage) -> u16
    requires { message.now.opcode < 16 }
    ensures sum { result ≡ upper_flags message.now }
    ensures few { result + 128 ≤ 65536 }
{
    32768 * bit_of(message.response)
        + 2048 * message.opcode as u16
        + 1024 * bit_of(message.authoritative)
        + 512 * bit_of(message.truncation)
        + 256 * bit_of(message.recursion_desired)
        + 128 * bit_of(message.recursion_available)
}

fn flags_of(message: &WireMessage) -> u16
    requires { message.now.opcode < 16 }
    ensures { result ≡ flags message.now false }
{
    upper_flags(message)
        + 32 * bit_of(message.authentic)
        + 16 * bit_of(message.checking)
        + message.code % 16
}

fn write_counts(
    out: &mut Vec<u8>,
    questions: u16,
    answers: u16,
    authorities: u16,
    extras: u16,
) -> Result<(), NoMemory>
    ensures { OnOk result (out.new.items ≡ out.old.items ++ spelled_counts questions answers authorities extras) }
{
    write_two(out, questions)?;
    write_two(out, answers)?;
    write_two(out, authorities)?;
    write_two(out, extras)
}

fn edns_count(edns: &Option<Edns>) -> usize
    ensures { result ≡ edns_count edns.now }
{
    match edns {
        Some(_) => 1,
        None => 0,
    }
}

fn write_header(out: &mut Vec<u8>, message: &WireMessage) -> Result<(), NoMemory>
    requires { CanSpell message.now }
    ensures { OnOk result (out.new.items ≡ out.old.items ++ spelled_header message.now) }
{
    write_two(out, message.id)?;
    write_two(out, flags_of(message))?;
    write_counts(
        out,
        message.questions.len() as u16,
        message.answers.len() as u16,
        message.authorities.len() as u16,
        (message.additionals.len() + edns_count(&message.edns)) as u16,
    )
}

/// Appends a message.
pub fn write_message(out: &mut Vec<u8>, message: &WireMessage) -> Result<(), NoMemory>
    requires can { CanSpell message.now }
    requires few { length (spelled message.now) ≤ 65535 }
    ensures ok { OnOk result (out.new.items ≡ out.old.items ++ spelled message.now) }
    ensures fit { OnOk result (FitMessage message.now) }
{
    write_header(out, message)?;
    write_sections(out, message)
}
