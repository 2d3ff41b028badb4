//! The text of the message that bytes spell.
ghost use Rattle.std.specs.Prelude.{◌≡◌, ◌++◌, Ok, IfOk, IfErr, OnOk};
ghost use Rattle.wire_names.specs.Reading.{Gives, Fails};
ghost use Rattle.dns_wire.specs.Reading.{reading};
ghost use Rattle.dns_wire.specs.Wire.{Wire};
ghost use Rattle.dns_wire.specs.declared.message.WireMessage.{WireMessage};
ghost use Rattle.decode_text.specs.Decoded.{decoded, IsDecoded};

use crate::lines::{put_edns, put_end, put_head_line, put_wire_line};
use crate::sections::{put_all_records, put_questions};
use dns_core::NoMemory;
use dns_wire::{WireError, WireMessage, read};
use std::alloc::Global;

#[tactic(auto, unfolding(crate::specs::Decoded::decoded))]
fn put_decoded(alloc: Global, message: &WireMessage, out: &mut Vec<u8>) -> Result<(), NoMemory>
    ensures { OnOk result (out.new.items ≡ out.old.items ++ decoded message.now) }
{
    put_wire_line(alloc, message, out)?;
    put_questions(alloc, message.questions.items(), out)?;
    put_head_line(alloc, message, out)?;
    put_all_records(alloc, message, out)?;
    put_edns(alloc, &message.edns, out)?;
    put_end(out)
}

/// The text of a message.
pub fn decoded_text(alloc: Global, message: &WireMessage) -> Result<Vec<u8>, NoMemory>
    ensures { IfOk result (λ text. text.items ≡ decoded message.now) }
{
    let mut text = Vec::new(alloc);
    put_decoded(alloc, message, &mut text)?;
    Ok(text)
}

/// The text of the message that bytes spell, or why they spell none.
pub fn decoded(alloc: Global, bytes: &[u8]) -> Result<Vec<u8>, WireError>
    // The text is that of the message that the bytes spell.
    ensures found { IfOk result (λ text. IsDecoded bytes.now text.items) }

    // The text of the message that the bytes spell is given, unless memory runs out.
    ensures only { (message : WireMessage) → Wire bytes.now message → Gives (λ text. text.items) result (Ok (decoded message)) }

    // Which fault it is.
    ensures exact { IfErr result (λ error. Fails error (reading bytes.now)) }
{
    match read(alloc, bytes) {
        Ok(message) => Ok(decoded_text(alloc, &message)?),
        Err(error) => Err(error),
    }
}
