//! What calls cost: the runs whose times and instructions the benches in bench/ compare. Words name a run and how
//! often it goes (`runs` has them). What is told of it is the same each time, so a bench takes the time of the whole
//! process.

pub mod access;
pub mod driving;
pub mod failure;
pub mod kept;
pub mod reading;
pub mod runs;

use crate::run::words_of;
use cases_subjects::first_line;
use dns_core::{NoMemory, Text};
use failure::Failure;
use runs::{line_of, run_of};
use std::alloc::Global;

/// What comes of the run that these words name, over a scenario.
pub fn told(alloc: Global, words: &[Text], scenario: &[u8]) -> Result<String, Failure> {
    match run_of(words) {
        Some(run) => line_of(alloc, run, scenario),
        None => Err(Failure::Words),
    }
}

/// What comes of a run. The first line has its words, and its scenario stands below it.
pub fn answer(alloc: Global, given: &[u8]) -> Result<String, NoMemory> {
    let (line, scenario) = first_line(given);
    let words = words_of(alloc, line)?;
    match told(alloc, words.as_slice(), scenario) {
        Ok(text) => Ok(format!(in alloc; "{text}\n")?),
        Err(Failure::NoMemory) => Err(NoMemory),
        Err(failure) => Ok(format!(in alloc; "{failure:?}\n")?),
    }
}
