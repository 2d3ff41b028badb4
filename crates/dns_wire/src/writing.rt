//! Writing a message out, without pointers.
ghost use Rattle.std.specs.Prelude.{◌≡◌, ◌<◌, ◌++◌, ◌↔◌, length, OnOk, OnErr, Err};
ghost use Rattle.dns_wire.specs.Spelling.{spelled, CanSpell};
ghost use Rattle.dns_wire.specs.Wire.{Wire};
ghost use Rattle.dns_wire.specs.declared.writing.WriteError.TheVariants.{TooLong, NoMemory};

use crate::message::WireMessage;
use crate::rooms::message_room;
use crate::spelling::write_message;
use dns_core::NoMemory as WantOfMemory;
use std::alloc::{AllocError, Global};

/// Why a message is not written.
#[derive(Clone, Copy, Debug, PartialEq, Eq)]
pub enum WriteError {
    /// It has more than 65,535 bytes without pointers.
    TooLong,
    /// There is no memory left.
    NoMemory,
}

impl From<AllocError> for WriteError {
    ghost from_gives = { λ _ e. e ≡ NoMemory };

    fn from(_e: AllocError) -> WriteError {
        WriteError::NoMemory
    }
}

impl From<WantOfMemory> for WriteError {
    ghost from_gives = { λ _ e. e ≡ NoMemory };

    fn from(_e: WantOfMemory) -> WriteError {
        WriteError::NoMemory
    }
}

/// Appends a message without pointers. After an error `out` is as before.
pub fn write(alloc: Global, message: &WireMessage, out: &mut Vec<u8>) -> Result<(), WriteError>
    requires { CanSpell message.now }

    // What is appended spells the message.
    ensures spelled { OnOk result (out.new.items ≡ out.old.items ++ spelled message.now) }

    // These bytes are the message in wire form.
    ensures wire { OnOk result (Wire (spelled message.now) message.now) }

    // Too long is what has more than 65,535 bytes, and nothing else.
    ensures long { result ≡ Err TooLong ↔ 65535 < length (spelled message.now) }
    ensures err { OnErr result (out.new.items ≡ out.old.items) }
{
    let Some(left) = message_room(message) else {
        return Err(WriteError::TooLong);
    };
    let mut bytes = Vec::with_capacity(alloc, 65535 - left)?;
    write_message(&mut bytes, message)?;
    out.extend_from_slice(&bytes)?;
    Ok(())
}
