//! Bytes, each as two digits in base 16.
ghost use Rattle.std.specs.Prelude.{◌≡◌, ◌<◌, [], IfSome};
ghost use Rattle.text_lines.specs.Fields.{Gives};
ghost use Rattle.text_lines.specs.Hex.{hex_value, pair_value, pairs_after, bytes_of};

use crate::words::LineError;
use dns_core::Bytes;
use std::alloc::Global;

fn hex_value(c: u8) -> Option<u8>
    ensures value { result ≡ hex_value c }
    ensures within { IfSome result (λ n. n < 16) }
{
    if c.is_ascii_digit() {
        Some(c - 48)
    } else if 97 <= c && c <= 102 {
        Some(c - 87)
    } else {
        None
    }
}

fn pair_value(high: u8, low: u8) -> Option<u8>
    ensures { result ≡ pair_value high low }
{
    let x = hex_value(high)?;
    let y = hex_value(low)?;
    Some(x * 16 + y)
}

/// The bytes that pairs of digits spell.
fn pairs(alloc: Global, word: &[u8]) -> Result<Bytes, LineError>
    ensures { Gives result (pairs_after [] word.now) }
{
    let mut bytes = Bytes::empty(alloc);
    let mut rest = word;
    'pairs: while !rest.is_empty() {
        if rest.len() < 2 {
            return Err(LineError::Refused);
        }
        let Some(b) = pair_value(rest[0], rest[1]) else {
            return Err(LineError::Refused);
        };
        bytes.push(b)?;
        rest = &rest[2..];
    }
    Ok(bytes)
}

/// The most digits of a word: two for each of the 65,535 bytes that the data of a record may have.
const MOST_DIGITS: usize = 131_070;

/// The bytes that a word spells; a dash spells none, and too many are refused unread.
pub fn bytes(alloc: Global, word: &[u8]) -> Result<Bytes, LineError>
    ensures { Gives result (bytes_of word.now) }
{
    if word.is_empty() {
        return Err(LineError::Refused);
    }
    if word == b"-".as_slice() {
        return Ok(Bytes::empty(alloc));
    }
    if word.len() > MOST_DIGITS {
        return Err(LineError::Refused);
    }
    pairs(alloc, word)
}
