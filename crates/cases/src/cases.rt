//! Tries the cases of a file, and tells those that do not come to what they want.

use crate::case_text::{Case, Kind, case_of, count_lines, given_with, row_of, wanted_with};
use crate::comparing::difference;
use crate::subject::Subject;
use std::alloc::Global;
use std::io;

/// How many cases were tried, and how many of them failed.
#[derive(Clone, Copy, Debug)]
pub struct Tally {
    pub tried: u64,
    pub failed: u64,
}

impl Tally {
    pub fn new() -> Tally {
        Tally {
            tried: 0,
            failed: 0,
        }
    }

    fn one(failed: bool) -> Tally {
        Tally {
            tried: 1,
            failed: if failed { 1 } else { 0 },
        }
    }

    pub fn add(&mut self, other: Tally) {
        self.tried = self.tried.saturating_add(other.tried);
        self.failed = self.failed.saturating_add(other.failed);
    }

    pub fn is_well(&self) -> bool {
        self.tried > 0 && self.failed == 0
    }
}

/// Tells that a case failed: where it stands, with which row, and what was wanted and found.
fn tell<R: Eprint>(rt: &R, case: Case<'_>, row: &str, found: &str, wanted: &str) -> io::Result<()> {
    let (file, line, name) = (case.file, case.line, case.name);
    eprintln!(rt; "{file}:{line}: {name}")?;
    if !row.is_empty() {
        eprintln!(rt; "  with: {row}")?;
    }
    let Some(place) = difference(found, wanted) else {
        return eprintln!(rt; "  is to come to something else, and does not");
    };
    let (number, is, should) = (place.number, place.found, place.wanted);
    eprintln!(rt; "  line {number} wanted: {should}")?;
    eprintln!(rt; "  line {number} found:  {is}")
}

/// Hands in these bytes, and tells where they do not come to what is wanted.
fn try_bytes<R: Eprint>(
    rt: &R,
    alloc: Global,
    subject: Subject,
    case: Case<'_>,
    bytes: &[u8],
    row: &str,
    wanted: &str,
) -> io::Result<Tally> {
    let found = subject.answer(alloc, bytes)?;
    let is_same = difference(&found, wanted).is_none();
    let failed = is_same == (case.kind == Kind::Not);
    if failed {
        tell(rt, case, row, &found, wanted)?;
    }
    Ok(Tally::one(failed))
}

/// Hands in a front of the bytes. `<number>` is the line in which it ends.
fn try_front<R: Eprint>(
    rt: &R,
    alloc: Global,
    subject: Subject,
    case: Case<'_>,
    front: &[u8],
    wanted: &str,
) -> io::Result<Tally> {
    let number = format!(in alloc; "{}", count_lines(front).saturating_add(1))?;
    let wanted = wanted.replace(alloc, "<number>", &number)?;
    try_bytes(rt, alloc, subject, case, front, &number, &wanted)
}

/// Hands in each front of the bytes but the whole.
fn try_fronts<R: Eprint>(
    rt: &R,
    alloc: Global,
    subject: Subject,
    case: Case<'_>,
    bytes: &[u8],
    wanted: &str,
) -> io::Result<Tally> {
    let mut tally = Tally::new();
    for end in 0..bytes.len() {
        tally.add(try_front(rt, alloc, subject, case, &bytes[..end], wanted)?);
    }
    Ok(tally)
}

/// What a case lacks with this row, if anything: a place for what the row says, or a front to hand in.
fn lack(case: Case<'_>, row: &str, answer: &str) -> Option<&'static str> {
    if !row.is_empty() && !case.given.contains("<line>") {
        return Some("has no <line> for its rows");
    }
    if !answer.is_empty() && !case.wanted.contains("<answer>") {
        return Some("has no <answer> for its rows");
    }
    if case.kind == Kind::Fronts && case.given.is_empty() {
        return Some("has no front");
    }
    None
}

/// Tries a case with a row of its table.
fn try_row<R: Eprint>(
    rt: &R,
    alloc: Global,
    subject: Subject,
    case: Case<'_>,
    row: &str,
    answer: &str,
) -> io::Result<Tally> {
    if let Some(why) = lack(case, row, answer) {
        let (file, line, name) = (case.file, case.line, case.name);
        eprintln!(rt; "{file}:{line}: {name} {why}")?;
        return Ok(Tally::one(true));
    }
    let bytes = given_with(alloc, case, row)?;
    let wanted = wanted_with(alloc, case.wanted, answer)?;
    if case.kind == Kind::Fronts {
        return try_fronts(rt, alloc, subject, case, &bytes, &wanted);
    }
    try_bytes(rt, alloc, subject, case, &bytes, row, &wanted)
}

/// Tries a case with each row of its table, or once where it has none.
fn try_case<R: Eprint>(
    rt: &R,
    alloc: Global,
    subject: Subject,
    case: Case<'_>,
) -> io::Result<Tally> {
    let mut tally = Tally::new();
    for line in case.wanted.lines() {
        if let Some((row, answer)) = row_of(line) {
            tally.add(try_row(rt, alloc, subject, case, row, answer)?);
        }
    }
    if tally.tried == 0 {
        return try_row(rt, alloc, subject, case, "", "");
    }
    Ok(tally)
}

/// Tries the case that a piece of a file is. A piece that is no case fails.
fn try_piece<R: Eprint>(
    rt: &R,
    alloc: Global,
    file: &str,
    subject: Subject,
    line: u64,
    piece: &str,
) -> io::Result<Tally> {
    match case_of(file, line, piece) {
        Some(case) => try_case(rt, alloc, subject, case),
        None => {
            eprintln!(rt; "{file}:{line}: no line -- parts what is given from what is wanted")?;
            Ok(Tally::one(true))
        }
    }
}

/// Tries each case of a file. A file without a case fails.
pub fn try_file<R: Eprint + AllocGlobal>(
    rt: &R,
    file: &str,
    subject: Subject,
    text: &str,
) -> io::Result<Tally> {
    let alloc = rt.alloc();
    let mut tally = Tally::new();
    let mut pieces = text.split("\n== ");
    let head = pieces.next().unwrap_or("");
    let mut line = count_lines(head.as_bytes()).saturating_add(2);
    for piece in pieces {
        tally.add(try_piece(rt, alloc, file, subject, line, piece)?);
        line = line
            .saturating_add(count_lines(piece.as_bytes()))
            .saturating_add(1);
    }
    if tally.tried == 0 {
        eprintln!(rt; "{file}: no case")?;
        return Ok(Tally::one(true));
    }
    Ok(tally)
}
