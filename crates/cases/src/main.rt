//! Tries the cases of the files in data/, and tells those that do not come to what they want. Where words are given
//! they name a run of the benches, whose scenario is read from standard input, to its end.
#![tactic(auto)]

mod benches;
mod case_text;
mod cases;
mod comparing;
mod decoding;
mod faults;
mod run;
mod subject;

use cases::Tally;
use dns_core::{StdSource, Text, read_all};
use std::process::ExitCode;
use std::{env, fs, io};
use subject::Subject;

/// The most bytes of a scenario.
const MOST: usize = 16_777_216;

/// The files of cases, and what each has cases of.
static FILES: [(&str, Subject); 25] = [
    ("words.cases", Subject::Words),
    ("faults.cases", Subject::Faults),
    ("fault_texts.cases", Subject::FaultTexts),
    ("worked_runs.cases", Subject::Run),
    ("runs.cases", Subject::Run),
    ("answers.cases", Subject::Run),
    ("kept_answers.cases", Subject::Run),
    ("worlds.cases", Subject::Run),
    ("check.cases", Subject::Check),
    ("decode.cases", Subject::Decode),
    ("scenario.cases", Subject::Scenario),
    ("many.cases", Subject::Scenario),
    ("bad_lines.cases", Subject::Scenario),
    ("bad_options.cases", Subject::Scenario),
    ("not_built.cases", Subject::Scenario),
    ("options.cases", Subject::Options),
    ("names.cases", Subject::Names),
    ("codes.cases", Subject::Codes),
    ("resolver.cases", Subject::Resolver),
    ("addresses.cases", Subject::Resolver),
    ("search.cases", Subject::Search),
    ("networks.cases", Subject::Networks),
    ("delays.cases", Subject::Delays),
    ("cache.cases", Subject::Cache),
    ("benches.cases", Subject::Bench),
];

/// Tries the cases of each file.
fn try_files(rt: &HostRuntime) -> io::Result<ExitCode> {
    let mut tally = Tally::new();
    for (file, subject) in &FILES {
        let text = fs::read_to_string(rt, file)?;
        tally.add(cases::try_file(rt, file, *subject, &text)?);
    }
    if tally.is_well() {
        println!(rt; "each case came to what it wants")?;
        return Ok(ExitCode::from(0));
    }
    eprintln!(rt; "{} of {} cases failed", tally.failed, tally.tried)?;
    Ok(ExitCode::from(1))
}

/// Goes through the run that these words name, and prints what comes of it.
fn bench(rt: &HostRuntime, words: &[Text]) -> io::Result<ExitCode> {
    let mut source = StdSource::new(rt.stdin());
    let Ok(scenario) = read_all(rt.alloc(), &mut source, MOST) else {
        eprintln!(rt; "standard input was not read")?;
        return Ok(ExitCode::from(1));
    };
    match benches::told(rt.alloc(), words, &scenario) {
        Ok(line) => {
            println!(rt; "{line}")?;
            Ok(ExitCode::from(0))
        }
        Err(failure) => {
            eprintln!(rt; "{failure:?}")?;
            Ok(ExitCode::from(1))
        }
    }
}

fn main(rt: HostRuntime) -> io::Result<ExitCode> {
    let mut words = Vec::new(rt.alloc());
    for word in env::args(&rt)?.skip(1) {
        words.push(Text::new(word))?;
    }
    if words.is_empty() {
        return try_files(&rt);
    }
    bench(&rt, words.as_slice())
}
