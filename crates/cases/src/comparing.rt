//! What was found, against what is wanted.

use std::str::Lines;

/// The first place at which what was found departs from what is wanted.
#[derive(Clone, Copy)]
pub struct Departure<'a> {
    /// The line of what was found, counted from 1.
    pub number: u64,
    pub found: &'a str,
    pub wanted: &'a str,
}

/// The first of the lines that is this one, or none; with how many were read.
fn seek<'a>(lines: &mut Lines<'a>, wanted: &str) -> (u64, Option<&'a str>) {
    let mut read: u64 = 0;
    for line in lines {
        read = read.saturating_add(1);
        if line == wanted {
            return (read, Some(line));
        }
    }
    (read, None)
}

/// Whether a wanted line says something of the whole text in place of one line of it.
fn is_count(line: &str) -> bool {
    line.starts_with("count ")
}

/// The first line that differs, where `...` stands for any lines up to the one that follows it.
fn first_line<'a>(found: &'a str, wanted: &'a str) -> Option<Departure<'a>> {
    let mut theirs = found.lines();
    let mut number: u64 = 0;
    let mut is_open = false;
    for line in wanted.lines() {
        if line == "..." {
            is_open = true;
        } else if !is_count(line) {
            let (read, next) = if is_open {
                seek(&mut theirs, line)
            } else {
                (1, theirs.next())
            };
            number = number.saturating_add(read);
            is_open = false;
            if next != Some(line) {
                return Some(Departure {
                    number,
                    found: next.unwrap_or("(nothing)"),
                    wanted: line,
                });
            }
        }
    }
    if is_open {
        return None;
    }
    let found = theirs.next()?;
    Some(Departure {
        number: number.saturating_add(1),
        found,
        wanted: "(nothing)",
    })
}

/// How many lines hold this text.
fn holding(found: &str, text: &str) -> u64 {
    let mut count: u64 = 0;
    for line in found.lines() {
        if line.contains(text) {
            count = count.saturating_add(1);
        }
    }
    count
}

/// Whether as many lines hold a text as a line `count <number>: <text>` says.
fn is_counted(found: &str, line: &str) -> bool {
    let Some(rest) = line.strip_prefix("count ") else {
        return true;
    };
    let Some((number, text)) = rest.split_once(": ") else {
        return false;
    };
    number.parse::<u64>() == Ok(holding(found, text))
}

/// The first count that is not so.
fn first_count<'a>(found: &str, wanted: &'a str) -> Option<Departure<'a>> {
    for line in wanted.lines() {
        if !is_counted(found, line) {
            return Some(Departure {
                number: 1,
                found: "(another count)",
                wanted: line,
            });
        }
    }
    None
}

/// Where what was found departs from what is wanted, if it does.
pub fn difference<'a>(found: &'a str, wanted: &'a str) -> Option<Departure<'a>> {
    match first_line(found, wanted) {
        Some(difference) => Some(difference),
        None => first_count(found, wanted),
    }
}
