//! The bytes of a message, and what `decode` writes for it.

use crate::run::ran;
use dns_core::NoMemory;
use dns_wire::{WriteError, read, write};
use std::alloc::Global;

/// The value of a hexadecimal digit.
fn digit(byte: u8) -> Option<u8> {
    match byte {
        b'0'..=b'9' => Some(byte - b'0'),
        b'a'..=b'f' => Some(byte - b'a' + 10),
        _ => None,
    }
}

/// The bytes that digits spell, two for each; what is no digit only parts them.
fn bytes_of(alloc: Global, given: &[u8]) -> Result<Vec<u8>, NoMemory> {
    let mut bytes = Vec::new(alloc);
    let mut high: Option<u8> = None;
    for byte in given {
        let Some(value) = digit(*byte) else {
            continue;
        };
        match high {
            Some(first) => {
                bytes.push(first.saturating_mul(16).saturating_add(value))?;
                high = None;
            }
            None => high = Some(value),
        }
    }
    Ok(bytes)
}

/// What stands in front of a message that is written.
const FRONT: &[u8] = b"front";

/// What is read of the bytes that were written behind `FRONT`.
fn read_behind(alloc: Global, out: &[u8]) -> Result<String, NoMemory> {
    match out.strip_prefix(FRONT) {
        Some(bytes) => ran(alloc, "decode", bytes),
        None => Ok(String::from_str(alloc, "the front is changed\n")?),
    }
}

/// That a message is too long, and whether the bytes are as before.
fn too_long(alloc: Global, out: &[u8]) -> Result<String, NoMemory> {
    let text = if out == FRONT {
        "too long without pointers\n"
    } else {
        "too long, and bytes are written\n"
    };
    Ok(String::from_str(alloc, text)?)
}

/// What is read of a message that was read and written again.
fn read_again(alloc: Global, bytes: &[u8]) -> Result<Option<String>, NoMemory> {
    let Ok(message) = read(alloc, bytes) else {
        return Ok(None);
    };
    let mut out = Vec::from_slice(alloc, FRONT)?;
    match write(alloc, &message, &mut out) {
        Ok(()) => Ok(Some(read_behind(alloc, &out)?)),
        Err(WriteError::TooLong) => Ok(Some(too_long(alloc, &out)?)),
        Err(WriteError::NoMemory) => Err(NoMemory),
    }
}

/// What `decode` writes for the bytes that digits spell, and behind it what it writes once the message is
/// written again, where that differs.
pub fn answer(alloc: Global, given: &[u8]) -> Result<String, NoMemory> {
    let bytes = bytes_of(alloc, given)?;
    let text = ran(alloc, "decode", &bytes)?;
    let Some(again) = read_again(alloc, &bytes)? else {
        return Ok(text);
    };
    if again == text {
        return Ok(text);
    }
    Ok(format!(in alloc; "{text}written again\n{again}")?)
}
