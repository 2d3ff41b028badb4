//! Lines that are not taken: which of them the format has, though they are not read yet.
ghost use Rattle.std.specs.Prelude.{◌≡◌, Option, IfOk};
ghost use Rattle.text_lines.specs.Fields.{Gives, GivesFields, checked};
ghost use Rattle.recursor_text.specs.Unbuilt.{is_protocol, refuse_line, connect_line, reply_line, question_line, stands, is_at_options, is_at_rules, is_at_questions, rule_line, late_line, other_line, line_at, refusal_at};

use super::draft::{Place, Refusal, Stage};
use super::option_lines::option_line;
use dns_core::NoMemory;
use std::alloc::Global;
use text_lines::{LineError, Words, answered, connected, delay, dnssec_word, pass};

// ---- words

#[tactic(auto, unfolding(crate::specs::Unbuilt::is_protocol))]
fn is_protocol(word: &[u8]) -> bool
    ensures { result ≡ is_protocol word.now }
{
    word == b"udp".as_slice()
        || word == b"tcp".as_slice()
        || word == b"tls".as_slice()
        || word == b"https".as_slice()
        || word == b"quic".as_slice()
        || word == b"h3".as_slice()
}

// ---- fields

fn protocol(words: &mut Words) -> Result<(), LineError>
    ensures { GivesFields result words.new (checked is_protocol words.old) }
{
    let Some(word) = words.next() else {
        return Err(LineError::Refused);
    };
    pass(is_protocol(word))
}

// ---- lines, each after its first word

#[tactic(auto, unfolding(crate::specs::Unbuilt::refuse_line))]
fn refuse_line(alloc: Global, words: &mut Words) -> Result<(), LineError>
    ensures { Gives result (refuse_line words.old) }
{
    words.ip(alloc)?;
    protocol(words)?;
    words.end()?;
    Ok(())
}

#[tactic(auto, unfolding(crate::specs::Unbuilt::connect_line))]
fn connect_line(alloc: Global, words: &mut Words) -> Result<(), LineError>
    ensures { Gives result (connect_line words.old) }
{
    words.ip(alloc)?;
    protocol(words)?;
    delay(words)?;
    drop(connected(words)?);
    words.end()?;
    Ok(())
}

#[tactic(auto, unfolding(crate::specs::Unbuilt::reply_line))]
fn reply_line(alloc: Global, words: &mut Words) -> Result<(), LineError>
    ensures { Gives result (reply_line words.old) }
{
    words.ip(alloc)?;
    protocol(words)?;
    drop(words.full_name(alloc)?);
    words.record_type()?;
    delay(words)?;
    drop(answered(words)?);
    words.end()?;
    Ok(())
}

#[tactic(auto, unfolding(crate::specs::Unbuilt::question_line))]
fn question_line(alloc: Global, words: &mut Words) -> Result<(), LineError>
    ensures { Gives result (question_line words.old) }
{
    drop(words.relaxed_name(alloc)?);
    words.record_type()?;
    let _dnssec_ok = dnssec_word(words)?;
    words.end()?;
    Ok(())
}

// ---- where a line can stand

fn is_at_options(stage: Stage) -> bool
    ensures { result ≡ is_at_options stage }
{
    matches!(&stage, Stage::Rooted | Stage::Optioned)
}

fn is_at_rules(stage: Stage) -> bool
    ensures { result ≡ is_at_rules stage }
{
    matches!(&stage, Stage::Scripted)
}

fn is_at_questions(stage: Stage) -> bool
    ensures { result ≡ is_at_questions stage }
{
    matches!(&stage, Stage::Scripted | Stage::Asked)
}

/// What was read, where it may stand.
fn stands(may: bool, read: Result<(), LineError>) -> Result<(), LineError>
    ensures { (spec : Option (Unit {0})) → Gives read spec → Gives result (stands may spec) }
{
    if may { read } else { Err(LineError::Refused) }
}

/// A line of a script, by its first word.
#[tactic(auto, unfolding(crate::specs::Unbuilt::rule_line))]
fn rule_line(alloc: Global, word: &[u8], words: &mut Words) -> Result<(), LineError>
    ensures { Gives result (rule_line word.now words.old) }
{
    if word == b"connect".as_slice() {
        return connect_line(alloc, words);
    }
    if word == b"refuse".as_slice() {
        return refuse_line(alloc, words);
    }
    if word == b"reply".as_slice() {
        return reply_line(alloc, words);
    }
    Err(LineError::Refused)
}

/// A line of a script, or a question, where there is room for one more.
#[tactic(auto, unfolding(crate::specs::Unbuilt::late_line))]
fn late_line(alloc: Global, place: Place, word: &[u8], words: &mut Words) -> Result<(), LineError>
    ensures { Gives result (late_line place word.now words.old) }
{
    let stage = place.stage;
    if word == b"question".as_slice() {
        return stands(
            is_at_questions(stage) && place.room,
            question_line(alloc, words),
        );
    }
    stands(is_at_rules(stage), rule_line(alloc, word, words))
}

/// A line that is no record line.
#[tactic(auto, unfolding(crate::specs::Unbuilt::other_line))]
fn other_line(alloc: Global, place: Place, words: &mut Words) -> Result<(), LineError>
    ensures { Gives result (other_line place words.old) }
{
    let Some(word) = words.next() else {
        return Err(LineError::Refused);
    };
    let stage = place.stage;
    if word == b"option".as_slice() {
        return stands(
            is_at_options(stage),
            option_line(alloc, place.option, words),
        );
    }
    late_line(alloc, place, word, words)
}

#[tactic(auto, unfolding(crate::specs::Unbuilt::line_at))]
fn line_at(alloc: Global, place: Place, line: &[u8]) -> Result<(), LineError>
    ensures { Gives result (line_at place line.now) }
{
    if place.owes {
        return Err(LineError::Refused);
    }
    let mut words = Words::new(line);
    other_line(alloc, place, &mut words)
}

/// How a line is refused that is not taken at its place.
pub fn refusal(alloc: Global, place: Place, line: &[u8]) -> Result<Refusal, NoMemory>
    ensures { IfOk result (λ why. why ≡ refusal_at place line.now) }
{
    match line_at(alloc, place, line) {
        Ok(()) => Ok(Refusal::NotBuilt),
        Err(LineError::Refused) => Ok(Refusal::Bad),
        Err(LineError::NoMemory) => Err(NoMemory),
    }
}
