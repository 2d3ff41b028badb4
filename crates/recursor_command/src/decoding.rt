//! The command `decode`: the bytes of a message in, and its text out.
ghost use Rattle.std.specs.Prelude.{IfOk, IfErr};
ghost use Rattle.recursor_command.specs.Command.{HasOutput, IsFaultOf};

use crate::faults::{Fault, wire_fault};
use crate::words::Command;
use decode_text::decoded;
use std::alloc::Global;

/// The most bytes of a message: as many as the two bytes count that stand before it in a stream.
const MOST: usize = 65_535;

/// What `decode` writes for the bytes of a message, or the fault that ends the run.
#[tactic(auto, using(crate::proofs::DecodeSays::wire_fits))]
pub fn message_for(alloc: Global, bytes: &[u8]) -> Result<Vec<u8>, Fault>
    ensures ok { IfOk result (λ text. HasOutput Command.Decode bytes.now text.items) }
    ensures err { IfErr result (IsFaultOf Command.Decode bytes.now) }
{
    if bytes.len() > MOST {
        return Err(Fault::LongMessage);
    }
    match decoded(alloc, bytes) {
        Ok(text) => Ok(text),
        Err(error) => Err(wire_fault(error)),
    }
}
