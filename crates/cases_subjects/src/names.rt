//! Lines that ask of names, and an answer to each.
//!
//! `strict`, `relaxed` and `bytes` read a name; `facts`, `parent` and `last <labels>` take one name, and
//! `subzone`, `zone` and `compare` take two. `(empty)` is the name without labels that is not qualified.

use crate::values::put_name;
use dns_core::{Name, NameError, NoMemory, is_subzone};
use std::alloc::Global;
use std::cmp::Ordering;
use std::fmt::Write;

/// The name that a word says.
fn name_in(alloc: Global, word: &str) -> Result<Name, NameError> {
    if word == "(empty)" {
        return Ok(Name::empty(alloc));
    }
    Name::parse(alloc, word)
}

fn error_text(error: NameError) -> &'static str {
    match error {
        NameError::EmptyLabel => "EmptyLabel",
        NameError::BadByte => "BadByte",
        NameError::LongLabel => "LongLabel",
        NameError::LongName => "LongName",
        NameError::NoMemory => "NoMemory",
    }
}

/// A name as text.
fn text_of(alloc: Global, name: &Name) -> Result<String, NoMemory> {
    let mut out = String::new(alloc);
    put_name(alloc, &mut out, name)?;
    Ok(out)
}

/// The text of a name that was read, or why there is none.
fn read_text(alloc: Global, read: Result<Name, NameError>) -> Result<String, NoMemory> {
    match read {
        Ok(name) => text_of(alloc, &name),
        Err(error) => Ok(format!(in alloc; " {}", error_text(error))?),
    }
}

fn facts(alloc: Global, word: &str) -> Result<String, NameError> {
    let name = name_in(alloc, word)?;
    let (labels, qualified) = (name.num_labels(), name.is_fqdn());
    let (root, empty) = (name.is_root(), name.is_empty());
    match format!(in alloc; " labels {labels} qualified {qualified} root {root} empty {empty}") {
        Ok(text) => Ok(text),
        Err(_) => Err(NameError::NoMemory),
    }
}

fn parent(alloc: Global, word: &str) -> Result<String, NameError> {
    let name = name_in(alloc, word)?;
    let parent = name.base_name(alloc)?;
    Ok(text_of(alloc, &parent)?)
}

/// The last labels of a name, where the words are its text and how many.
fn last(alloc: Global, words: &str) -> Result<String, NameError> {
    let (count, word) = words.split_once(' ').unwrap_or((words, ""));
    let name = name_in(alloc, word)?;
    let candidate = name.trim_to(alloc, count.parse().unwrap_or(0))?;
    Ok(text_of(alloc, &candidate)?)
}

/// The two names that two words say.
fn two(alloc: Global, words: &str) -> Result<(Name, Name), NameError> {
    let (left, right) = words.split_once(' ').unwrap_or((words, ""));
    Ok((name_in(alloc, left)?, name_in(alloc, right)?))
}

fn yes(alloc: Global, is_so: bool) -> Result<String, NameError> {
    match String::from_str(alloc, if is_so { " yes" } else { " no" }) {
        Ok(text) => Ok(text),
        Err(_) => Err(NameError::NoMemory),
    }
}

fn subzone(alloc: Global, words: &str) -> Result<String, NameError> {
    let (parent, child) = two(alloc, words)?;
    yes(alloc, is_subzone(&parent, &child))
}

fn zone(alloc: Global, words: &str) -> Result<String, NameError> {
    let (parent, child) = two(alloc, words)?;
    yes(alloc, parent.zone_of(&child))
}

fn order_text(order: Ordering) -> &'static str {
    match order {
        Ordering::Less => "less",
        Ordering::Equal => "equal",
        Ordering::Greater => "greater",
    }
}

fn compare(alloc: Global, words: &str) -> Result<String, NameError> {
    let (left, right) = two(alloc, words)?;
    let order = order_text(left.cmp(&right));
    let (equal, identical) = (left == right, left.eq_case(&right));
    match format!(in alloc; " {order} equal {equal} identical {identical}") {
        Ok(text) => Ok(text),
        Err(_) => Err(NameError::NoMemory),
    }
}

/// The answer to a word and what follows it, or why there is no name.
fn asked(alloc: Global, word: &str, rest: &str) -> Result<String, NameError> {
    match word {
        "facts" => facts(alloc, rest),
        "parent" => parent(alloc, rest),
        "last" => last(alloc, rest),
        "subzone" => subzone(alloc, rest),
        "zone" => zone(alloc, rest),
        "compare" => compare(alloc, rest),
        _ => yes(alloc, false),
    }
}

/// The answer to a line, with a space before it.
fn line_answer(alloc: Global, line: &str) -> Result<String, NoMemory> {
    let (word, rest) = line.split_once(' ').unwrap_or((line, ""));
    match word {
        "strict" => read_text(alloc, Name::parse(alloc, rest)),
        "relaxed" => read_text(alloc, Name::parse_relaxed(alloc, rest)),
        "bytes" => read_text(alloc, Name::parse_relaxed_bytes(alloc, rest.as_bytes())),
        _ => match asked(alloc, word, rest) {
            Ok(text) => Ok(text),
            Err(error) => Ok(format!(in alloc; " {}", error_text(error))?),
        },
    }
}

/// A line that answers each line.
pub fn answer(alloc: Global, given: &[u8]) -> Result<String, NoMemory> {
    let mut out = String::new(alloc);
    for line in std::str::from_utf8(given).unwrap_or("").lines() {
        let text = line_answer(alloc, line)?;
        writeln!(out, "{}", text.trim_start())?;
    }
    Ok(out)
}
