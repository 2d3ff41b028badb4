//! What is done with a cache of responses, line by line, and what is seen of it.
//!
//! Lines `size <responses>` and `copy`; `write <question> <TTL>` for an answer, `deny <question> <TTL> <minimum>`
//! for a denial with the SOA of these, `fail <question>` for a timeout, each with ` clamped` behind it where
//! the expiry of a current entry is kept; and `read <question>`. A question is a moment in microseconds, a
//! name, a type and a class.

use dns_core::NoMemory;
use std::alloc::Global;
use std::fmt::Write;
use std::str::SplitWhitespace;

/// What is asked: a name as text, and the numbers of a type and a class.
#[derive(Clone, Copy)]
pub struct Asked<'a> {
    pub name: &'a str,
    pub kind: u16,
    pub class: u16,
}

/// What is told: an answer with this TTL, a denial with an SOA of this TTL and minimum, or a timeout.
#[derive(Clone, Copy)]
pub enum Told {
    Answer(u32),
    Denial { ttl: u32, minimum: u32 },
    Timeout,
}

/// What a line writes, and the number of the line.
#[derive(Clone, Copy)]
pub struct Writing<'a> {
    pub asked: Asked<'a>,
    pub told: Told,
    pub now: u64,
    pub is_clamped: bool,
    pub line: u64,
}

/// What a line says.
#[derive(Clone, Copy)]
pub enum Step<'a> {
    /// The cache begins again, empty and with this size.
    Size(u64),
    /// A copy takes the place of the cache.
    Copy,
    Write(Writing<'a>),
    Read { asked: Asked<'a>, now: u64 },
    /// The line says nothing of these.
    Bad,
}

/// What is seen once a line was done.
#[derive(Clone, Copy, PartialEq, Eq)]
pub enum Seen {
    /// So many entries, expired or not.
    Entries(u64),
    /// An answer, or a denial, with this TTL, that a line wrote.
    Answer { ttl: u32, line: u64 },
    Denial { ttl: u32, line: u64 },
    Expired,
    Absent,
    Bad,
}

/// The number of the next word, or 0 where there is none.
fn number(words: &mut SplitWhitespace<'_>) -> u64 {
    words.next().unwrap_or("").parse().unwrap_or(0)
}

/// The same for a number of 32 bits.
fn seconds(words: &mut SplitWhitespace<'_>) -> u32 {
    words.next().unwrap_or("").parse().unwrap_or(0)
}

/// The number of a type (RFC 1035 section 3.2.2, RFC 3596 section 2.1).
fn kind_of(word: &str) -> u16 {
    match word {
        "A" => 1,
        "NS" => 2,
        "AAAA" => 28,
        _ => 0,
    }
}

/// The number of a class (RFC 1035 section 3.2.4).
fn class_of(word: &str) -> u16 {
    match word {
        "IN" => 1,
        "CH" => 3,
        _ => 0,
    }
}

fn asked_in<'a>(words: &mut SplitWhitespace<'a>) -> Asked<'a> {
    let name = words.next().unwrap_or("");
    let kind = kind_of(words.next().unwrap_or(""));
    let class = class_of(words.next().unwrap_or(""));
    Asked { name, kind, class }
}

/// What a line with this first word tells.
fn told_in(word: &str, words: &mut SplitWhitespace<'_>) -> Option<Told> {
    match word {
        "write" => Some(Told::Answer(seconds(words))),
        "deny" => {
            let ttl = seconds(words);
            let minimum = seconds(words);
            Some(Told::Denial { ttl, minimum })
        }
        "fail" => Some(Told::Timeout),
        _ => None,
    }
}

/// What the words behind the first one say, of a line on a question.
fn step_in<'a>(word: &str, words: &mut SplitWhitespace<'a>, line: u64) -> Step<'a> {
    let now = number(words);
    let asked = asked_in(words);
    if word == "read" {
        return Step::Read { asked, now };
    }
    let Some(told) = told_in(word, words) else {
        return Step::Bad;
    };
    Step::Write(Writing {
        asked,
        told,
        now,
        is_clamped: words.next() == Some("clamped"),
        line,
    })
}

/// What a line of this number says.
pub fn step_of(text: &str, line: u64) -> Step<'_> {
    let mut words = text.split_whitespace();
    match words.next() {
        Some("size") => Step::Size(number(&mut words)),
        Some("copy") => Step::Copy,
        Some(word) => step_in(word, &mut words, line),
        None => Step::Bad,
    }
}

/// Writes what is seen.
fn put_seen(out: &mut String, seen: Seen) -> Result<(), NoMemory> {
    match seen {
        Seen::Entries(count) => write!(out, "entries {count}")?,
        Seen::Answer { ttl, line } => write!(out, "answer {ttl} of line {line}")?,
        Seen::Denial { ttl, line } => write!(out, "denial {ttl} of line {line}")?,
        Seen::Expired => out.push_str("expired")?,
        Seen::Absent => out.push_str("absent")?,
        Seen::Bad => out.push_str("bad line")?,
    }
    Ok(())
}

/// Writes what is seen, as a line.
pub fn put_line(out: &mut String, seen: Seen) -> Result<(), NoMemory> {
    put_seen(out, seen)?;
    out.push_str("\n")?;
    Ok(())
}
