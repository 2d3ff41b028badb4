//! Lines on the delay of a server, and what it is after each, in microseconds.
//!
//! `record <round trip> <moment>`, `failure <moment>`, `current <moment>` and `micros`, of a delay that begins
//! with the number of a line `new`; and `steps <count> <seed>`, of another delay, with a checksum of all that
//! is read of it.

use crate::delay_steps::delay_after;
use dns_core::NoMemory;
use server_core::DecayingSrtt;
use std::alloc::Global;
use std::fmt::Write;

/// A number, or 0 where the word is none.
fn number(word: &str) -> u64 {
    word.parse().unwrap_or(0)
}

/// A delay of five seconds at most.
fn new(word: &str) -> DecayingSrtt {
    match word.parse::<u32>() {
        Ok(micros) if micros <= 5_000_000 => DecayingSrtt::new(micros),
        _ => DecayingSrtt::new(0),
    }
}

/// Does what a line says, and gives the delay then.
fn line_answer(delay: &mut DecayingSrtt, line: &str) -> u64 {
    let (word, rest) = line.split_once(' ').unwrap_or((line, ""));
    let (first, second) = rest.split_once(' ').unwrap_or((rest, ""));
    match word {
        "new" => *delay = new(first),
        "record" => delay.record(number(first), number(second)),
        "failure" => delay.record_failure(number(first)),
        "current" => return delay.current(number(first)),
        _ => {}
    }
    u64::from(delay.as_micros())
}

/// The delay after so many steps from a seed, and the checksum.
fn steps(words: &str) -> (u32, u64) {
    let (count, seed) = words.split_once(' ').unwrap_or((words, ""));
    delay_after(count.parse().unwrap_or(0), number(seed))
}

/// A line that answers each line.
pub fn answer(alloc: Global, given: &[u8]) -> Result<String, NoMemory> {
    let mut delay = DecayingSrtt::new(0);
    let mut out = String::new(alloc);
    for line in std::str::from_utf8(given).unwrap_or("").lines() {
        match line.strip_prefix("steps ") {
            Some(words) => {
                let (micros, checksum) = steps(words);
                writeln!(out, "{micros} {checksum}")?;
            }
            None => {
                let micros = line_answer(&mut delay, line);
                writeln!(out, "{micros}")?;
            }
        }
    }
    Ok(out)
}
