//! What cases are of: each is a text that is handed in, and a text that comes of it.

use crate::{benches, decoding, faults, run};
use cases_subjects::{codes, delays, kept, names, networks, resolver, scenario};
use dns_core::NoMemory;
use std::alloc::{AllocError, Global};

/// What a file has cases of.
#[derive(Clone, Copy)]
pub enum Subject {
    /// A scenario, and what `resolve` writes for it.
    Run,
    /// A scenario, and what `check` writes for it.
    Check,
    /// The bytes of a message, and what `decode` writes for it.
    Decode,
    /// The words of the command, and what it writes for an empty text.
    Words,
    /// Calls that fail, commands and their text, and what the commands write.
    Faults,
    /// Faults, and their texts.
    FaultTexts,
    /// A scenario, and what is read of it but its options.
    Scenario,
    /// A scenario, and how it sets a recursor.
    Options,
    /// Questions about names.
    Names,
    /// The text of a resolver, and what it says.
    Resolver,
    /// Search domains.
    Search,
    /// Questions about networks.
    Networks,
    /// What delays become.
    Delays,
    /// What a cache of responses reads.
    Cache,
    /// The numbers of types, classes and codes.
    Codes,
    /// The runs of the benches, and what they tell.
    Bench,
}

impl Subject {
    /// What comes of these bytes, or out of memory.
    fn told(self, alloc: Global, given: &[u8]) -> Result<String, NoMemory> {
        match self {
            Subject::Run => run::answer(alloc, given),
            Subject::Check => run::check(alloc, given),
            Subject::Decode => decoding::answer(alloc, given),
            Subject::Words => run::answer_to_words(alloc, given),
            Subject::Faults => faults::answer(alloc, given),
            Subject::FaultTexts => faults::texts(alloc, given),
            Subject::Scenario => scenario::answer(alloc, given),
            Subject::Options => scenario::options(alloc, given),
            Subject::Names => names::answer(alloc, given),
            Subject::Resolver => resolver::answer(alloc, given),
            Subject::Search => resolver::search_domains(alloc, given),
            Subject::Networks => networks::answer(alloc, given),
            Subject::Delays => delays::answer(alloc, given),
            Subject::Cache => kept::answer(alloc, given),
            Subject::Codes => codes::answer(alloc, given),
            Subject::Bench => benches::answer(alloc, given),
        }
    }

    /// What comes of these bytes, as text.
    pub fn answer(self, alloc: Global, given: &[u8]) -> Result<String, AllocError> {
        match self.told(alloc, given) {
            Ok(text) => Ok(text),
            Err(_) => String::from_str(alloc, "out of memory\n"),
        }
    }
}
