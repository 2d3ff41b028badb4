//! The lines of a world that are no record lines, each read on its own.
ghost use Rattle.std.specs.Prelude.{◌≡◌};
ghost use Rattle.text_lines.specs.Fields.{Gives, GivesFields, field, in_table};
ghost use Rattle.recursor_text.specs.Lines.{alias_words, count_field, zone_numbers, delay_of, aliases_of, zone_of, host_of, world_form_of, is_world_line};

use crate::world_reading::counts::Count;
use dns_core::{Items, Name};
use std::alloc::Global;
use text_lines::{LineError, Words, delay};
use zone_worlds::Host;

/// How many zones a world may have.
pub const MOST_ZONES: u64 = 10_000;

/// The first line of a zone: its apex, and how many records follow.
#[derive(Drop)]
pub struct ZoneHead {
    pub apex: Name,
    pub count: Count,
}

/// What a line of a world says that is no record line.
#[derive(Drop)]
pub enum WorldForm {
    Delay(u32),
    /// Whether an answer follows the aliases inside a zone.
    Aliases(bool),
    Zone(ZoneHead),
    Host(Host),
}

fn alias_word(words: &mut Words) -> Result<bool, LineError>
    ensures { GivesFields result words.new (field (in_table alias_words) words.old) }
{
    let Some(word) = words.next() else {
        return Err(LineError::Refused);
    };
    if word == b"alone".as_slice() {
        return Ok(false);
    }
    if word == b"chain".as_slice() {
        return Ok(true);
    }
    Err(LineError::Refused)
}

/// How many records a zone has.
fn record_count(alloc: Global, words: &mut Words) -> Result<Count, LineError>
    ensures { GivesFields result words.new (count_field words.old) }
{
    let Some(word) = words.next() else {
        return Err(LineError::Refused);
    };
    Count::read(alloc, word)
}

/// The numbers of zones that all words spell: at least one, and each above the one before.
fn zone_numbers(alloc: Global, words: &mut Words) -> Result<Items<u32>, LineError>
    ensures { Gives result (zone_numbers 1 words.old) }
{
    let mut numbers = Items::empty(alloc);
    let mut low: u64 = 1;
    'numbers: loop {
        let number = words.number(low, MOST_ZONES)?;
        numbers.push(number as u32)?;
        match words.end() {
            Ok(()) => return Ok(numbers),
            Err(LineError::Refused) => low = number + 1,
            Err(LineError::NoMemory) => return Err(LineError::NoMemory),
        }
    }
}

// ---- the kinds of lines, each after its first word

#[tactic(auto, unfolding(crate::specs::Lines::delay_of))]
fn delay_line(words: &mut Words) -> Result<WorldForm, LineError>
    ensures { Gives result (delay_of words.old) }
{
    let delay = delay(words)?;
    words.end()?;
    Ok(WorldForm::Delay(delay))
}

#[tactic(auto, unfolding(crate::specs::Lines::aliases_of))]
fn aliases_line(words: &mut Words) -> Result<WorldForm, LineError>
    ensures { Gives result (aliases_of words.old) }
{
    let chain = alias_word(words)?;
    words.end()?;
    Ok(WorldForm::Aliases(chain))
}

#[tactic(auto, unfolding(crate::specs::Lines::zone_of))]
fn zone_line(alloc: Global, words: &mut Words) -> Result<WorldForm, LineError>
    ensures { Gives result (zone_of words.old) }
{
    let apex = words.full_name(alloc)?;
    let count = record_count(alloc, words)?;
    words.end()?;
    Ok(WorldForm::Zone(ZoneHead { apex, count }))
}

#[tactic(auto, unfolding(crate::specs::Lines::host_of))]
fn host_line(alloc: Global, words: &mut Words) -> Result<WorldForm, LineError>
    ensures { Gives result (host_of words.old) }
{
    let ip = words.ip(alloc)?;
    let zones = zone_numbers(alloc, words)?;
    Ok(WorldForm::Host(Host { ip, zones }))
}

/// What a line of a world says that is no record line.
#[tactic(auto, unfolding(crate::specs::Lines::world_forms_of))]
pub fn world_line(alloc: Global, line: &[u8]) -> Result<WorldForm, LineError>
    ensures { Gives result (world_form_of line.now) }
{
    let mut words = Words::new(line);
    let Some(word) = words.next() else {
        return Err(LineError::Refused);
    };
    if word == b"host".as_slice() {
        return host_line(alloc, &mut words);
    }
    if word == b"zone".as_slice() {
        return zone_line(alloc, &mut words);
    }
    if word == b"delay".as_slice() {
        return delay_line(&mut words);
    }
    if word == b"aliases".as_slice() {
        return aliases_line(&mut words);
    }
    Err(LineError::Refused)
}

/// Whether the first word of a line is that of a line of a world which is no record line.
#[tactic(auto, unfolding(crate::specs::Lines::starts_world))]
pub fn is_world_line(line: &[u8]) -> bool
    ensures { result ≡ is_world_line line.now }
{
    let mut words = Words::new(line);
    match words.next() {
        Some(word) => {
            word == b"host".as_slice()
                || word == b"zone".as_slice()
                || word == b"delay".as_slice()
                || word == b"aliases".as_slice()
        }
        None => false,
    }
}
