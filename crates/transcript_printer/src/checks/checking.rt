//! What `check` tells of a world.
ghost use Rattle.std.specs.Prelude.{◌≡◌, ◌++◌, IfOk, OnOk};
ghost use Rattle.recursor_types.specs.Options.{server_filter_of, answer_filter_of};
ghost use Rattle.transcript_printer.specs.Log.{numbered_text};
ghost use Rattle.world_check.specs.Clauses.{clauses, IsVerdict};
ghost use Rattle.transcript_printer.specs.Checking.{filters_of, verdict_text, valid_text, check_text, AreValid, Tells};

use dns_core::{NoMemory, Question, TryClone};
use recursor_types::RecursorOptions;
use resolver_settings::{AccessControlSet, AccessControlSetBuilder};
use std::alloc::Global;
use std::net::IpAddr;
use world_check::{Verdict, WorldFilters, check_indexed};
use zone_worlds::{IndexedWorld, World};

fn server_filter(alloc: Global, options: &RecursorOptions) -> Result<AccessControlSet, NoMemory>
    ensures { IfOk result (λ filter. filter ≡ server_filter_of options.now) }
{
    let builder = AccessControlSetBuilder::new(alloc, "server");
    let builder = builder.allow(alloc, options.allow_server.items())?;
    let builder = builder.deny(alloc, options.deny_server.items())?;
    Ok(builder.build())
}

fn answer_filter(alloc: Global, options: &RecursorOptions) -> Result<AccessControlSet, NoMemory>
    ensures { IfOk result (λ filter. filter ≡ answer_filter_of options.now) }
{
    let builder = AccessControlSetBuilder::new(alloc, "answers");
    let builder = builder.allow(alloc, options.allow_answers.items())?;
    let builder = builder.deny(alloc, options.deny_answers.items())?;
    Ok(builder.build())
}

/// The filters that options say.
fn filters(alloc: Global, options: &RecursorOptions) -> Result<WorldFilters, NoMemory>
    ensures { IfOk result (λ filters. filters ≡ filters_of options.now) }
{
    let server = server_filter(alloc, options)?;
    let answer = answer_filter(alloc, options)?;
    Ok(WorldFilters { server, answer })
}

/// Whether the world is well served for a recursor of these roots and options.
fn verdict(
    alloc: Global,
    world: &IndexedWorld,
    roots: &[IpAddr],
    options: &RecursorOptions,
    patience: u32,
) -> Result<Verdict, NoMemory>
    ensures { IfOk result (IsVerdict (clauses world.now roots.now (filters_of options.now) patience)) }
{
    let filters = filters(alloc, options)?;
    check_indexed(alloc, world, roots, &filters, patience)
}

/// Which questions are valid for a recursor of these depth limits.
fn valid_questions(
    alloc: Global,
    world: &IndexedWorld,
    depth: u8,
    ns_depth: u8,
    questions: &[Question],
) -> Result<Vec<bool>, NoMemory>
    ensures { IfOk result (λ valid. AreValid world.now depth ns_depth questions.now valid.items) }
{
    let mut valid = Vec::new(alloc);
    for question in questions {
        let is_valid = world.is_valid(alloc, depth, ns_depth, &question.query)?;
        valid.push(is_valid)?;
    }
    Ok(valid)
}

fn verdict_line(alloc: Global, verdict: Verdict) -> Result<Vec<u8>, NoMemory>
    ensures { IfOk result (λ text. text.items ≡ verdict_text verdict) }
{
    match verdict {
        Verdict::Yes => Ok(Vec::from_slice(alloc, b"verdict yes\n")?),
        Verdict::No(n) => Ok(format!(in alloc; "verdict no {n}\n")?.into_bytes()),
    }
}

fn valid_line(alloc: Global, number: u64, is_valid: bool) -> Result<Vec<u8>, NoMemory>
    ensures { IfOk result (λ text. text.items ≡ valid_text number is_valid) }
{
    if is_valid {
        Ok(format!(in alloc; "valid {number} yes\n")?.into_bytes())
    } else {
        Ok(format!(in alloc; "valid {number} no\n")?.into_bytes())
    }
}

fn put(text: &[u8], out: &mut Vec<u8>) -> Result<(), NoMemory>
    ensures { OnOk result (out.new.items ≡ out.old.items ++ text.now) }
{
    out.extend_from_slice(text)?;
    Ok(())
}

fn put_valid(alloc: Global, number: u64, is_valid: bool, out: &mut Vec<u8>) -> Result<(), NoMemory>
    ensures { OnOk result (out.new.items ≡ out.old.items ++ valid_text number is_valid) }
{
    let line = valid_line(alloc, number, is_valid)?;
    put(line.as_slice(), out)
}

fn put_all_valid(alloc: Global, valid: &[bool], out: &mut Vec<u8>) -> Result<(), NoMemory>
    ensures { OnOk result (out.new.items ≡ out.old.items ++ numbered_text valid_text 1 valid.now) }
{
    for (i, is_valid) in valid.iter().enumerate() {
        put_valid(alloc, i as u64 + 1, *is_valid, out)?;
    }
    Ok(())
}

fn told(alloc: Global, verdict: Verdict, valid: &[bool]) -> Result<Vec<u8>, NoMemory>
    ensures { IfOk result (λ text. text.items ≡ check_text verdict valid.now) }
{
    let mut out = verdict_line(alloc, verdict)?;
    put_all_valid(alloc, valid, &mut out)?;
    put(b"end\n", &mut out)?;
    Ok(out)
}

/// What is told of a world that has its index.
fn text_of(
    alloc: Global,
    world: &IndexedWorld,
    roots: &[IpAddr],
    options: &RecursorOptions,
    patience: u32,
    questions: &[Question],
) -> Result<Vec<u8>, NoMemory>
    ensures { IfOk result (λ text. Tells world.now roots.now options.now patience questions.now text.items) }
{
    let verdict = verdict(alloc, world, roots, options, patience)?;
    let depth = options.recursion_limit;
    let ns_depth = options.ns_recursion_limit;
    let valid = valid_questions(alloc, world, depth, ns_depth, questions)?;
    told(alloc, verdict, valid.as_slice())
}

/// What is told of a world, for a recursor of these roots, options and patience that is asked these
/// questions. Makes an index of the world, once.
pub fn check_text(
    alloc: Global,
    world: &World,
    roots: &[IpAddr],
    options: &RecursorOptions,
    patience: u32,
    questions: &[Question],
) -> Result<Vec<u8>, NoMemory>
    ensures { IfOk result (λ text. Tells world.now roots.now options.now patience questions.now text.items) }
{
    let copy = world.try_clone(alloc)?;
    let indexed = IndexedWorld::new(alloc, copy)?;
    text_of(alloc, &indexed, roots, options, patience, questions)
}
