//! The program: its command line, standard input and standard output, handed to `recursor_command`.
#![tactic(auto)]

use dns_core::{NoMemory, StdSink, StdSource, Text};
use recursor_command::{Status, run};
use std::alloc::Global;
use std::env;
use std::process::ExitCode;

/// The words of the command line, without the program's own.
fn words(rt: &HostRuntime) -> Option<Vec<Text>> {
    let mut words = Vec::new(rt.alloc());
    let Ok(arguments) = env::args(rt) else {
        return None;
    };
    for argument in arguments.skip(1) {
        if words.push(Text::new(argument)).is_err() {
            return None;
        }
    }
    Some(words)
}

fn main(rt: HostRuntime) -> ExitCode {
    let Some(words) = words(&rt) else {
        return ExitCode::from(Status::NoMemory.code());
    };
    let mut source = StdSource::new(rt.stdin());
    let mut sink = StdSink::new(rt.stdout());
    let status = run(rt.alloc(), words.as_slice(), &mut source, &mut sink);
    ExitCode::from(status.code())
}
