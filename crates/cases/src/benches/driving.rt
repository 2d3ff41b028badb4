//! Questions of a scenario, driven over its script.

use crate::benches::failure::Failure;
use dns_core::{Items, NoMemory, Question, TryClone};
use recursor_core::{Recursor, Reply, drive};
use recursor_text::{Scenario, Upstream, read_scenario};
use script_upstream::{Script, ScriptUpstream};
use std::alloc::Global;

/// A recursor over a script, and its question.
#[derive(Drop)]
struct Bench {
    recursor: Recursor<ScriptUpstream>,
    questions: Items<Question>,
}

/// The script of a scenario; none is told a world here.
fn script_of(upstream: Upstream) -> Result<Script, Failure> {
    match upstream {
        Upstream::Script(script) => Ok(script),
        Upstream::World(_) => Err(Failure::Refused),
    }
}

fn bench_over(alloc: Global, scenario: Scenario) -> Result<Bench, Failure> {
    let Scenario {
        roots,
        options,
        patience: _,
        upstream,
        questions,
        turns: _,
    } = scenario;
    let script = script_of(upstream)?;
    if !script.is_qualified() {
        return Err(Failure::Unqualified);
    }
    let upstream = ScriptUpstream::new(alloc, script)?;
    match Recursor::with_options(alloc, roots.items(), options, upstream) {
        Ok(recursor) => Ok(Bench {
            recursor,
            questions,
        }),
        Err(_) => Err(Failure::Refused),
    }
}

fn bench_of(alloc: Global, scenario: &[u8]) -> Result<Bench, Failure> {
    match read_scenario(alloc, scenario) {
        Ok(scenario) => bench_over(alloc, scenario),
        Err(error) => Err(Failure::Line(error.line)),
    }
}

fn count_answered(replies: &[Reply]) -> usize {
    replies.iter().filter(|reply| reply.outcome.is_ok()).count()
}

/// How many of these questions get an answer, in a run of their own.
fn driven(
    alloc: Global,
    recursor: &mut Recursor<ScriptUpstream>,
    questions: &[Question],
) -> Result<usize, Failure> {
    let replies = drive(alloc, recursor, questions, &[], 3)?;
    Ok(count_answered(replies.as_slice()))
}

fn count_answers(alloc: Global, bench: &mut Bench, times: u32) -> Result<usize, Failure> {
    let mut answers: usize = 0;
    for _ in 0..times {
        let found = driven(alloc, &mut bench.recursor, bench.questions.items())?;
        answers = answers.saturating_add(found);
    }
    Ok(answers)
}

/// Drives the questions of a scenario so often, each time in a run of their own, and counts the answers.
pub fn answers(alloc: Global, scenario: &[u8], times: u32) -> Result<usize, Failure> {
    let mut bench = bench_of(alloc, scenario)?;
    count_answers(alloc, &mut bench, times)
}

fn push_copy(alloc: Global, all: &mut Vec<Question>, question: &Question) -> Result<(), NoMemory> {
    all.push(question.try_clone(alloc)?)?;
    Ok(())
}

/// So many copies of the first of these questions.
fn repeated(alloc: Global, questions: &[Question], count: u32) -> Result<Vec<Question>, NoMemory> {
    let mut all = Vec::new(alloc);
    let Some(question) = questions.first() else {
        return Ok(all);
    };
    for _ in 0..count {
        push_copy(alloc, &mut all, question)?;
    }
    Ok(all)
}

fn count_in_one_run(alloc: Global, bench: &mut Bench, count: u32) -> Result<usize, Failure> {
    let questions = repeated(alloc, bench.questions.items(), count)?;
    driven(alloc, &mut bench.recursor, questions.as_slice())
}

/// Drives the first question of a scenario so many times, in one run, and counts its answers.
pub fn answers_of_one_run(alloc: Global, scenario: &[u8], count: u32) -> Result<usize, Failure> {
    let mut bench = bench_of(alloc, scenario)?;
    count_in_one_run(alloc, &mut bench, count)
}
