//! Commands over a source and a sink of which calls fail or move few bytes, and the texts of faults.
ghost use Rattle.std.specs.Prelude.{None};

use crate::run::words_of;
use cases_subjects::first_line;
use dns_core::{Failed, Items, MemorySink, MemorySource, NoMemory, Numbers, Sink, Source};
use dns_wire::WireError;
use recursor_command::{Fault, run};
use std::alloc::Global;
use std::fmt::Write;

/// A source or a sink of which a call moves at most so many bytes. A source that moves none gives nothing at first,
/// and then one byte a call; a sink takes one byte at least.
#[derive(Drop)]
struct Short<T> {
    inner: T,
    most: usize,
}

impl<S: Source> Source for Short<S> {
    ghost left = { λ s. None };

    ghost faults = { λ s. S.faults s.inner };

    fn read(&mut self, out: &mut [u8]) -> Result<usize, Failed> {
        let room = out.len().min(self.most);
        self.most = self.most.max(1);
        self.inner.read(&mut out[..room])
    }
}

impl<K: Sink> Sink for Short<K> {
    ghost written = { λ s. None };

    ghost faults = { λ s. K.faults s.inner };

    fn write(&mut self, piece: &[u8]) -> Result<usize, Failed> {
        let room = piece.len().min(self.most.max(1));
        self.inner.write(&piece[..room])
    }
}

/// That the call of this number fails; none has the number 0, for which every word stands that is no number.
fn failing(alloc: Global, call: &str) -> Result<Numbers, NoMemory> {
    let mut numbers = Numbers::empty(alloc);
    numbers.push(call.parse().unwrap_or(0))?;
    Ok(numbers)
}

/// Runs these commands, which commas part, one after another, and gives the status of each.
fn statuses<S: Source, K: Sink>(
    alloc: Global,
    commands: &str,
    source: &mut S,
    sink: &mut K,
) -> Result<String, NoMemory> {
    let mut out = String::new(alloc);
    for line in commands.split(',') {
        let words = words_of(alloc, line)?;
        let code = run(alloc, words.as_slice(), source, sink).code();
        writeln!(out, "status {code}")?;
    }
    Ok(out)
}

/// What the sink took, and behind it the statuses.
fn told(alloc: Global, written: &[u8], statuses: &str) -> Result<String, NoMemory> {
    let text = std::str::from_utf8(written).unwrap_or("no text\n");
    Ok(format!(in alloc; "{text}{statuses}")?)
}

/// The number of bytes that stands behind a word, which no call reaches where none stands there.
fn size_behind(line: &str, word: &str) -> usize {
    let (_, behind) = line.split_once(word).unwrap_or((line, ""));
    let (number, _) = behind.split_once(' ').unwrap_or((behind, ""));
    number.parse().unwrap_or(usize::MAX)
}

/// The calls of the source and of the sink that fail, as they are written.
fn calls_in(line: &str) -> (&str, &str) {
    let line = line.strip_prefix("failing ").unwrap_or(line);
    let (of_source, behind) = line.split_once(' ').unwrap_or((line, ""));
    let (of_sink, _) = behind.split_once(' ').unwrap_or((behind, ""));
    (of_source, of_sink)
}

/// What comes of commands over one source and one sink. The first line is `failing <call of the source> <call of the
/// sink> giving <bytes of a read> taking <bytes of a write>: <words>, <words>`, where both sizes may be left out, and
/// the source has what stands below it.
pub fn answer(alloc: Global, given: &[u8]) -> Result<String, NoMemory> {
    let (line, below) = first_line(given);
    let (calls, commands) = line.split_once(": ").unwrap_or((line, ""));
    let (of_source, of_sink) = calls_in(calls);
    let held = Items::new(Vec::from_slice(alloc, below)?);
    let mut source = Short {
        inner: MemorySource::new(alloc, held, failing(alloc, of_source)?),
        most: size_behind(calls, " giving "),
    };
    let mut sink = Short {
        inner: MemorySink::new(alloc, failing(alloc, of_sink)?),
        most: size_behind(calls, " taking "),
    };
    let statuses = statuses(alloc, commands, &mut source, &mut sink)?;
    told(alloc, sink.inner.written(), &statuses)
}

/// The fault of a message that has this name.
fn wire_fault(name: &str) -> Option<Fault> {
    Some(Fault::Wire(match name {
        "Long" => return Some(Fault::LongMessage),
        "Short" => WireError::Short,
        "BadLabel" => WireError::BadLabel,
        "BadPointer" => WireError::BadPointer,
        "BadByte" => WireError::BadByte,
        "LongName" => WireError::LongName,
        "BadData" => WireError::BadData,
        "BadOpt" => WireError::BadOpt,
        "Trailing" => WireError::Trailing,
        _ => return None,
    }))
}

/// The fault that a line says.
fn fault_in(line: &str) -> Option<Fault> {
    let (words, number) = line.rsplit_once(' ').unwrap_or((line, ""));
    match words {
        "words" => Some(Fault::Words),
        "line" => Some(Fault::Line(number.parse().ok()?)),
        "not built" => Some(Fault::NotBuilt(number.parse().ok()?)),
        "wire" => wire_fault(number),
        "read" => Some(Fault::Read),
        "memory" => Some(Fault::Memory),
        _ => None,
    }
}

/// The text of a fault, and the status with which it ends a run.
fn fault_text(alloc: Global, fault: Fault) -> Result<String, NoMemory> {
    let text = fault.text(alloc)?;
    let code = fault.status().code();
    let text = std::str::from_utf8(&text).unwrap_or("no text\n");
    Ok(format!(in alloc; "{text}status {code}\n")?)
}

/// The texts of the faults that the lines say.
pub fn texts(alloc: Global, given: &[u8]) -> Result<String, NoMemory> {
    let mut out = String::new(alloc);
    for line in std::str::from_utf8(given).unwrap_or("").lines() {
        match fault_in(line) {
            Some(fault) => out.push_str(&fault_text(alloc, fault)?)?,
            None => out.push_str("no fault\n")?,
        }
    }
    Ok(out)
}
