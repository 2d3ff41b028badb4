//! Cases as text: their parts, and what stands for what in them.

use std::alloc::{AllocError, Global};

/// How a case is tried.
#[derive(Clone, Copy, PartialEq, Eq)]
pub enum Kind {
    /// What is handed in comes to what is wanted.
    Same,
    /// It does not.
    Not,
    /// Each front of what is handed in, but the whole, comes to what is wanted.
    Fronts,
}

/// A case: where it stands, its name, what is handed in, and what is wanted, with its rows.
#[derive(Clone, Copy)]
pub struct Case<'a> {
    pub file: &'a str,
    /// The line of its name, counted from 1.
    pub line: u64,
    pub name: &'a str,
    pub kind: Kind,
    pub given: &'a str,
    /// Whether what is handed in has no end of its last line.
    pub is_cut: bool,
    pub wanted: &'a str,
}

/// How many lines end in a text.
pub fn count_lines(bytes: &[u8]) -> u64 {
    let mut count: u64 = 0;
    for byte in bytes {
        if *byte == b'\n' {
            count = count.saturating_add(1);
        }
    }
    count
}

/// How a case with this first line is tried, and its name.
fn kind_of(head: &str) -> (Kind, &str) {
    if let Some(name) = head.strip_prefix("not: ") {
        return (Kind::Not, name);
    }
    match head.strip_prefix("fronts: ") {
        Some(name) => (Kind::Fronts, name),
        None => (Kind::Same, head),
    }
}

/// What stands before and behind the line that parts what is handed in from what is wanted, and
/// whether that says that the last line has no end.
fn parts(piece: &str) -> Option<(&str, &str, bool)> {
    if let Some((head, wanted)) = piece.split_once("\n--\n") {
        return Some((head, wanted, false));
    }
    let (head, wanted) = piece.split_once("\n-- cut\n")?;
    Some((head, wanted, true))
}

/// The case of a piece of a file, whose first line is its name.
pub fn case_of<'a>(file: &'a str, line: u64, piece: &'a str) -> Option<Case<'a>> {
    let (head, wanted, is_cut) = parts(piece)?;
    let (first, given) = head.split_once('\n').unwrap_or((head, ""));
    let (kind, name) = kind_of(first);
    Some(Case {
        file,
        line,
        name,
        kind,
        given,
        is_cut,
        wanted,
    })
}

/// The row of a table that a line is: what stands for `<line>`, and for `<answer>`.
pub fn row_of(line: &str) -> Option<(&str, &str)> {
    let row = line.strip_prefix("| ")?;
    Some(row.split_once(" => ").unwrap_or((row, "")))
}

/// The wanted lines, that are neither rows nor notes, with this answer in its place.
pub fn wanted_with(alloc: Global, wanted: &str, answer: &str) -> Result<String, AllocError> {
    let mut text = String::new(alloc);
    for line in wanted.trim_end_matches('\n').lines() {
        if !line.starts_with("| ") && !line.starts_with("# ") {
            text.push_str(line)?;
            text.push_str("\n")?;
        }
    }
    let lines = answer.replace(alloc, "; ", "\n")?;
    text.replace(alloc, "<answer>", &lines)
}

/// The value of a hexadecimal digit.
fn digit(byte: u8) -> Option<u8> {
    match byte {
        b'0'..=b'9' => Some(byte - b'0'),
        b'a'..=b'f' => Some(byte - b'a' + 10),
        _ => None,
    }
}

/// The byte that two hexadecimal digits in front say, and what follows them.
fn byte_in_front(text: &[u8]) -> Option<(u8, &[u8])> {
    match text {
        [high, low, rest @ ..] => {
            let byte = digit(*high)?.checked_mul(16)?.checked_add(digit(*low)?)?;
            Some((byte, rest))
        }
        _ => None,
    }
}

/// Appends the bytes of what stands behind `\x`.
fn put_piece(bytes: &mut Vec<u8>, piece: &[u8]) -> Result<(), AllocError> {
    let Some((byte, rest)) = byte_in_front(piece) else {
        return bytes.extend_from_slice(piece);
    };
    bytes.push(byte)?;
    bytes.extend_from_slice(rest)
}

/// The bytes of a text, in which `\x` and two digits stand for a byte.
fn unescaped(alloc: Global, text: &str) -> Result<Vec<u8>, AllocError> {
    let mut pieces = text.split("\\x");
    let mut bytes = Vec::from_slice(alloc, pieces.next().unwrap_or("").as_bytes())?;
    for piece in pieces {
        put_piece(&mut bytes, piece.as_bytes())?;
    }
    Ok(bytes)
}

/// How often a line `times <number>: <line>` says that a line is to stand, and that line.
fn repeated(line: &str) -> Option<(u32, &str)> {
    let (times, repeated) = line.strip_prefix("times ")?.split_once(": ")?;
    Some((times.parse().ok()?, repeated))
}

/// Appends a line, or so many as it stands for.
fn put_line(to: &mut String, line: &str) -> Result<(), AllocError> {
    let (times, line) = repeated(line).unwrap_or((1, line));
    for _ in 0..times {
        to.push_str(line)?;
        to.push_str("\n")?;
    }
    Ok(())
}

/// The lines of a text, each with its end, and in place of each line that stands for others these.
fn written_out(alloc: Global, text: &str) -> Result<String, AllocError> {
    let mut lines = String::new(alloc);
    for line in text.split('\n') {
        put_line(&mut lines, line)?;
    }
    Ok(lines)
}

/// The text, without its last line end where it is cut there.
fn to_the_cut(text: &str, is_cut: bool) -> &str {
    if !is_cut {
        return text;
    }
    text.strip_suffix('\n').unwrap_or("")
}

/// What is handed in where this row stands in place of `<line>`.
pub fn given_with(alloc: Global, case: Case<'_>, row: &str) -> Result<Vec<u8>, AllocError> {
    let rows = row.replace(alloc, "; ", "\n")?;
    let text = case.given.replace(alloc, "<line>", &rows)?;
    if text.is_empty() {
        return Ok(Vec::new(alloc));
    }
    let lines = written_out(alloc, &text)?;
    unescaped(alloc, to_the_cut(&lines, case.is_cut))
}
