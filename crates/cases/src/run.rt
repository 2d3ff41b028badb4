//! A scenario, and what a command writes for it.

use dns_core::{Items, MemorySink, MemorySource, NoMemory, Numbers, Text};
use recursor_command::run;
use std::alloc::Global;

/// What was written, and behind it the status where it is not 0.
fn told(alloc: Global, written: &[u8], code: u8) -> Result<String, NoMemory> {
    let Ok(text) = std::str::from_utf8(written) else {
        return Ok(String::from_str(alloc, "no text\n")?);
    };
    if code == 0 {
        return Ok(String::from_str(alloc, text)?);
    }
    Ok(format!(in alloc; "{text}status {code}\n")?)
}

/// The words of a command line, which spaces part.
pub fn words_of(alloc: Global, line: &str) -> Result<Vec<Text>, NoMemory> {
    let mut words = Vec::new(alloc);
    for word in line.split_whitespace() {
        words.push(Text::new(String::from_str(alloc, word)?))?;
    }
    Ok(words)
}

/// What the command writes with these words for these bytes.
pub fn ran(alloc: Global, line: &str, bytes: &[u8]) -> Result<String, NoMemory> {
    let held = Items::new(Vec::from_slice(alloc, bytes)?);
    let words = words_of(alloc, line)?;
    let mut source = MemorySource::new(alloc, held, Numbers::empty(alloc));
    let mut sink = MemorySink::new(alloc, Numbers::empty(alloc));
    let status = run(alloc, words.as_slice(), &mut source, &mut sink);
    told(alloc, sink.written(), status.code())
}

/// What `resolve` writes for a scenario.
pub fn answer(alloc: Global, given: &[u8]) -> Result<String, NoMemory> {
    ran(alloc, "resolve", given)
}

/// What `check` writes for a scenario.
pub fn check(alloc: Global, given: &[u8]) -> Result<String, NoMemory> {
    ran(alloc, "check", given)
}

/// What the command writes with these words, where its source is empty.
pub fn answer_to_words(alloc: Global, given: &[u8]) -> Result<String, NoMemory> {
    let line = std::str::from_utf8(given).unwrap_or("");
    ran(alloc, line, b"")
}
