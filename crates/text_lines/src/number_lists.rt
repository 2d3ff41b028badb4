//! Lists of numbers, each in its one spelling: ports that rise, and first delays.
ghost use Rattle.std.specs.Prelude.{◌≡◌, ◌≤◌, IfOk};
ghost use Rattle.text_lines.specs.Fields.{Gives};
ghost use Rattle.text_lines.specs.NumberLists.{each_port, ports_of, delays_of};
ghost use Rattle.text_lines.specs.Numbers.{number_within};
ghost use Rattle.text_lines.specs.Pieces.{pieces};

use crate::numbers::number;
use crate::pieces::cut;
use crate::words::LineError;
use dns_core::{Delays, Ports};
use std::alloc::Global;

/// The number from `low` to `most` that a word spells.
fn number_within(word: &[u8], low: u64, most: u64) -> Result<u64, LineError>
    ensures read { Gives result (number_within low most word.now) }
    ensures within { IfOk result (λ n. n ≤ most) }
{
    match number(word, most) {
        Some(n) if low <= n => Ok(n),
        _ => Err(LineError::Refused),
    }
}

/// The ports that all items of a list spell, each above the one before.
fn each_port(alloc: Global, word: &[u8]) -> Result<Ports, LineError>
    ensures { Gives result (each_port 0 (pieces 44 word.now)) }
{
    let mut ports = Ports::empty(alloc);
    let mut low: u64 = 0;
    let mut rest = word;
    'items: loop {
        let (item, after) = cut(rest, b',');
        let port = number_within(item, low, 65_535)?;
        ports.push(port as u16)?;
        let Some(after) = after else {
            return Ok(ports);
        };
        low = port + 1;
        rest = after;
    }
}

/// The ports that a word spells; a dash spells none.
pub fn ports(alloc: Global, word: &[u8]) -> Result<Ports, LineError>
    ensures { Gives result (ports_of word.now) }
{
    if word == b"-".as_slice() {
        return Ok(Ports::empty(alloc));
    }
    each_port(alloc, word)
}

/// The delays that all items of a list spell, in microseconds.
pub fn delays(alloc: Global, word: &[u8]) -> Result<Delays, LineError>
    ensures { Gives result (delays_of word.now) }
{
    let mut delays = Delays::empty(alloc);
    let mut rest = word;
    'items: loop {
        let (item, after) = cut(rest, b',');
        let delay = number_within(item, 1, 31)?;
        delays.push(delay as u8)?;
        let Some(after) = after else {
            return Ok(delays);
        };
        rest = after;
    }
}
