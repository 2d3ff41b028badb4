//! Reading a message.
ghost use Rattle.std.specs.Prelude.{◌≡◌, ◌<◌, Ok, IfOk};
ghost use Rattle.wire_names.specs.Kept.{IsRest, AreKept};
ghost use Rattle.wire_names.specs.Reading.{Gives};
ghost use Rattle.dns_wire.specs.Wire.{Wire};
ghost use Rattle.dns_wire.specs.Reading.{is_set, message_of, sections_of, reading};
ghost use Rattle.dns_wire.specs.Spelling.{CanSpell};
ghost use Rattle.dns_wire.specs.declared.message.WireMessage.{WireMessage};

use crate::header::{Header, read_header};
use crate::message::WireMessage;
use dns_core::{Items, Query, Record};
use std::alloc::Global;
use wire_names::{KeptNames, WireError};
use wire_records::{Edns, read_extras, read_questions, read_records};

fn is_set(flags: u16, place: u16) -> bool
    requires { 0 < place }
    ensures { result ≡ is_set flags place }
{
    flags / place % 2 == 1
}

/// The message of a header and of what the sections hold.
fn message_from(
    header: Header,
    questions: Vec<Query>,
    answers: Vec<Record>,
    authorities: Vec<Record>,
    additionals: Vec<Record>,
    told: Option<(u8, Edns)>,
) -> WireMessage
    ensures { result ≡ message_of header questions.items answers.items authorities.items (additionals.items, told) }
{
    let (upper, edns) = match told {
        Some((upper, edns)) => (upper, Some(edns)),
        None => (0, None),
    };
    WireMessage {
        id: header.id,
        response: is_set(header.flags, 32768),
        opcode: (header.flags / 2048 % 16) as u8,
        authoritative: is_set(header.flags, 1024),
        truncation: is_set(header.flags, 512),
        recursion_desired: is_set(header.flags, 256),
        recursion_available: is_set(header.flags, 128),
        authentic: is_set(header.flags, 32),
        checking: is_set(header.flags, 16),
        code: 16 * upper as u16 + header.flags % 16,
        questions: Items::new(questions),
        answers: Items::new(answers),
        authorities: Items::new(authorities),
        additionals: Items::new(additionals),
        edns,
    }
}

/// The message of a header and of the sections that follow it.
#[tactic(auto, unfolding(crate::specs::Reading::sections_of))]
fn read_sections(
    alloc: Global,
    message: &[u8],
    header: Header,
    body: &[u8],
    kept: &mut KeptNames,
) -> Result<WireMessage, WireError>
    requires rest { IsRest message.now body.now }
    requires kept { AreKept message.now kept.old }
    ensures { Gives (λ m. m) result (sections_of message.now header body.now) }
{
    let (questions, rest) = read_questions(alloc, message, header.questions, body, kept)?;
    let (answers, rest) = read_records(alloc, message, header.answers, rest, kept)?;
    let (authorities, rest) = read_records(alloc, message, header.authorities, rest, kept)?;
    let (additionals, told, rest) = read_extras(alloc, message, header.extras, rest, kept)?;
    if !rest.is_empty() {
        return Err(WireError::Trailing);
    }
    Ok(message_from(header, questions, answers, authorities, additionals, told))
}

fn read_message(alloc: Global, bytes: &[u8]) -> Result<WireMessage, WireError>
    ensures { Gives (λ m. m) result (reading bytes.now) }
{
    let (header, body) = read_header(bytes)?;
    let mut kept = KeptNames::new(alloc)?;
    read_sections(alloc, bytes, header, body, &mut kept)
}

/// Reads a message.
pub fn read(alloc: Global, bytes: &[u8]) -> Result<WireMessage, WireError>
    // What is read is the message that the bytes spell.
    ensures found { IfOk result (λ message. Wire bytes.now message) }

    // The message that the bytes spell is read, unless memory runs out.
    ensures only { (message : WireMessage) → Wire bytes.now message → Gives (λ m. m) result (Ok message) }

    // Which fault it is.
    ensures exact { Gives (λ m. m) result (reading bytes.now) }

    // What is read can be written.
    ensures writable { IfOk result (λ message. CanSpell message) }
{
    read_message(alloc, bytes)
}
