//! The runs of the benches: which words name each, what it does, and what it prints.
//!
//! - `access SETS TIMES`: 10,000 addresses, so often, against the recommended networks, which are denied
//!   once for each of so many sets;
//! - `answers TIMES`: the questions of the scenario, so often, each time in a run of their own;
//! - `many QUESTIONS`: the first question of the scenario, so many times in one run;
//! - `kept ENTRIES CALL TIMES`: a cache of responses with so many entries, and so often a call on a question
//!   that is there: `get`, `put`, or `make`, where a question and an answer are made for nothing;
//! - `held ANSWERS`: so many of the same answers without a cache;
//! - `read TIMES`: a message in wire form, whose bytes stand in place of a scenario, so often.

use crate::benches::driving::{answers, answers_of_one_run};
use crate::benches::failure::Failure;
use crate::benches::kept::{Call, Calls};
use crate::benches::{access, kept, reading};
use dns_core::Text;
use std::alloc::Global;

/// A run that the words name, and how often it goes.
#[derive(Clone, Copy)]
pub enum Run {
    Access { sets: u32, times: u32 },
    Answers { times: u32 },
    Many { questions: u32 },
    Kept(Calls),
    Held { answers: u32 },
    Read { times: u32 },
}

/// The call of this name.
fn call_of(name: &str) -> Option<Call> {
    match name {
        "make" => Some(Call::Make),
        "get" => Some(Call::Get),
        "put" => Some(Call::Put),
        _ => None,
    }
}

/// The run with this number that this word names.
fn counted_of(word: &str, number: u32) -> Option<Run> {
    match word {
        "answers" => Some(Run::Answers { times: number }),
        "many" => Some(Run::Many { questions: number }),
        "held" => Some(Run::Held { answers: number }),
        "read" => Some(Run::Read { times: number }),
        _ => None,
    }
}

/// The run that these words name.
pub fn run_of(words: &[Text]) -> Option<Run> {
    match words {
        [word, number] => counted_of(word.items(), number.items().parse().ok()?),
        [word, sets, times] if word.items() == "access" => Some(Run::Access {
            sets: sets.items().parse().ok()?,
            times: times.items().parse().ok()?,
        }),
        [word, entries, call, times] if word.items() == "kept" => Some(Run::Kept(Calls {
            entries: entries.items().parse().ok()?,
            call: call_of(call.items())?,
            times: times.items().parse().ok()?,
        })),
        _ => None,
    }
}

fn access_line(alloc: Global, sets: u32, times: u32) -> Result<String, Failure> {
    let (four, six) = access::count_denied(alloc, sets, times)?;
    let line = format!(in alloc;
        "access {sets} {times}: {four} of IPv4 and {six} of IPv6 are denied"
    )?;
    Ok(line)
}

fn answers_line(alloc: Global, scenario: &[u8], times: u32) -> Result<String, Failure> {
    let answered = answers(alloc, scenario, times)?;
    let line = format!(in alloc; "answers {times}: {answered} are answered")?;
    Ok(line)
}

fn many_line(alloc: Global, scenario: &[u8], questions: u32) -> Result<String, Failure> {
    let answered = answers_of_one_run(alloc, scenario, questions)?;
    let line = format!(in alloc; "many {questions}: {answered} are answered")?;
    Ok(line)
}

fn kept_line(alloc: Global, calls: Calls) -> Result<String, Failure> {
    let (found, count) = calls.go(alloc)?;
    let (entries, call, times) = (calls.entries, calls.call.text(), calls.times);
    let line = format!(in alloc; "kept {entries} {call} {times}: {found} are found of {count}")?;
    Ok(line)
}

fn held_line(alloc: Global, answers: u32) -> Result<String, Failure> {
    let held = kept::hold(alloc, answers)?;
    let line = format!(in alloc; "held {answers}: {held} are held")?;
    Ok(line)
}

fn read_line(alloc: Global, bytes: &[u8], times: u32) -> Result<String, Failure> {
    let read = reading::count_read(alloc, bytes, times)?;
    let line = format!(in alloc; "read {times}: {read} are messages")?;
    Ok(line)
}

/// Does a run over a scenario. Gives the line that tells what came of it.
pub fn line_of(alloc: Global, run: Run, scenario: &[u8]) -> Result<String, Failure> {
    match run {
        Run::Access { sets, times } => access_line(alloc, sets, times),
        Run::Answers { times } => answers_line(alloc, scenario, times),
        Run::Many { questions } => many_line(alloc, scenario, questions),
        Run::Kept(calls) => kept_line(alloc, calls),
        Run::Held { answers } => held_line(alloc, answers),
        Run::Read { times } => read_line(alloc, scenario, times),
    }
}
