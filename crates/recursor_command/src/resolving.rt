//! The command `resolve`: a scenario in, a transcript out.
ghost use Rattle.std.specs.Prelude.{min, ◌≡◌, ◌≢◌, false, List, [], Some, IfOk, IfErr, IsTrue};
ghost use Rattle.dns_core.specs.declared.log.LogEntry.{LogEntry};
ghost use Rattle.script_upstream.specs.Giving.{Gives as ScriptGives};
ghost use Rattle.script_upstream.specs.Script.{is_qualified_script};
ghost use Rattle.script_upstream.specs.Upstream.{told_by as script_told};
ghost use Rattle.world_upstream.specs.Giving.{Gives as WorldGives};
ghost use Rattle.world_upstream.specs.Upstream.{told_by as world_told};
ghost use Rattle.world_upstream.specs.Qualified.{is_qualified_world};
ghost use Rattle.resolver_settings.specs.Ttl.{has_reversed};
ghost use Rattle.recursor_types.specs.Options.{has_bad_first_delays};
ghost use Rattle.transcript_printer.specs.Transcript.{has_transcript_words, transcript_text};
ghost use Rattle.recursor_text.specs.Spelling.{Reads};
ghost use Rattle.recursor_command.specs.Command.{terms_by, IsUntold, IsNewOver, IsRunnable, Resolves, Ran, HasRun, HasOutput, IsFaultOf};

use crate::faults::{Fault, fault_of};
use crate::words::Command;
use dns_core::{ConnectionProvider, Ips, Items, Log, NoMemory, Question, TryClone, Turn};
use recursor_core::{Recursor, RecursorError, RecursorOptions, Reply, drive};
use recursor_text::{Scenario, Transcript, Upstream, print_transcript, read_scenario};
use script_upstream::{Script, ScriptUpstream};
use std::alloc::Global;
use world_upstream::WorldUpstream;
use zone_worlds::World;

/// Want of memory, the one refusal that is left where roots and options are right.
fn only_memory(error: RecursorError) -> NoMemory
    requires { error ≡ RecursorError.NoMemory }
{
    match error {
        RecursorError::NoMemory => NoMemory,
        _ => unreachable!(),
    }
}

/// A recursor over a provider that told nothing yet.
fn recursor_over<P: ConnectionProvider>(
    alloc: Global,
    roots: &Ips,
    options: RecursorOptions,
    provider: P,
) -> Result<Recursor<P>, NoMemory>
    requires new { IsUntold (P.log provider) }
    requires rooted { roots.now ≢ [] }
    requires ordered { has_reversed options.cache_policy ≡ false }
    requires delayed { has_bad_first_delays options.first_delays ≡ false }
    ensures { IfOk result (IsNewOver roots.now options provider) }
{
    match Recursor::with_options(alloc, roots.items(), options, provider) {
        Ok(recursor) => Ok(recursor),
        Err(error) => Err(only_memory(error)),
    }
}

/// A patience in polls, which a new recursor does not lower: it has 32 bits.
fn first_patience(polls: u32) -> u32
    ensures same { result ≡ polls }
    ensures first { min 4294967295 polls ≡ polls }
{
    polls
}

/// Answers questions over a provider that told nothing yet, and hands it back with the replies.
fn driven<P: ConnectionProvider>(
    alloc: Global,
    roots: &Ips,
    options: RecursorOptions,
    patience: u32,
    questions: &[Question],
    turns: &[Turn],
    provider: P,
) -> Result<(P, Vec<Reply>), NoMemory>
    requires new { IsUntold (P.log provider) }
    requires rooted { roots.now ≢ [] }
    requires ordered { has_reversed options.cache_policy ≡ false }
    requires delayed { has_bad_first_delays options.first_delays ≡ false }
    ensures resolves { IfOk result (λ run. (log : List LogEntry) → P.log run.0 ≡ Some log → Resolves (terms_by roots.now options patience) questions.now turns.now log run.1.items) }
    ensures vouches { IfOk result (λ run. (log : List LogEntry) → P.vouches run.0 log → P.vouches provider log) }
{
    let mut recursor = recursor_over(alloc, roots, options, provider)?;
    let replies = drive(
        alloc,
        &mut recursor,
        questions,
        turns,
        first_patience(patience),
    )?;
    Ok((recursor.into_provider(), replies))
}

/// The whole log of a script.
fn script_log(alloc: Global, mut upstream: ScriptUpstream) -> Result<Log, NoMemory>
    ensures gives { IfOk result (λ log. ScriptGives upstream.script log) }
    ensures told { IfOk result (λ log. log ≡ script_told upstream) }
{
    upstream.gather()?;
    upstream.log().try_clone(alloc)
}

/// The whole log of a world.
fn world_log(alloc: Global, mut upstream: WorldUpstream) -> Result<Log, NoMemory>
    ensures gives { IfOk result (λ log. WorldGives upstream.world log) }
    ensures told { IfOk result (λ log. log ≡ world_told upstream) }
{
    upstream.gather()?;
    upstream.log().try_clone(alloc)
}

/// Answers questions over a script.
fn ran_script(
    alloc: Global,
    roots: &Ips,
    options: RecursorOptions,
    patience: u32,
    questions: &[Question],
    turns: &[Turn],
    script: Script,
) -> Result<Transcript, NoMemory>
    requires rooted { roots.now ≢ [] }
    requires ordered { has_reversed options.cache_policy ≡ false }
    requires delayed { has_bad_first_delays options.first_delays ≡ false }
    requires qualified { IsTrue (is_qualified_script script) }
    ensures gives { IfOk result (λ t. ScriptGives script t.log) }
    ensures resolves { IfOk result (λ t. Resolves (terms_by roots.now options patience) questions.now turns.now t.log t.replies) }
{
    let provider = ScriptUpstream::new(alloc, script)?;
    let run = driven(alloc, roots, options, patience, questions, turns, provider)?;
    let log = script_log(alloc, run.0)?;
    let replies = Items::new(run.1);
    Ok(Transcript { log, replies })
}

/// Answers questions over a world.
fn ran_world(
    alloc: Global,
    roots: &Ips,
    options: RecursorOptions,
    patience: u32,
    questions: &[Question],
    turns: &[Turn],
    world: World,
) -> Result<Transcript, NoMemory>
    requires rooted { roots.now ≢ [] }
    requires ordered { has_reversed options.cache_policy ≡ false }
    requires delayed { has_bad_first_delays options.first_delays ≡ false }
    requires qualified { IsTrue (is_qualified_world world) }
    ensures gives { IfOk result (λ t. WorldGives world t.log) }
    ensures resolves { IfOk result (λ t. Resolves (terms_by roots.now options patience) questions.now turns.now t.log t.replies) }
{
    let provider = WorldUpstream::new(alloc, world)?;
    let run = driven(alloc, roots, options, patience, questions, turns, provider)?;
    let log = world_log(alloc, run.0)?;
    let replies = Items::new(run.1);
    Ok(Transcript { log, replies })
}

/// Answers the questions of a scenario over its upstream.
fn ran(alloc: Global, scenario: Scenario) -> Result<Transcript, NoMemory>
    requires { IsRunnable scenario }
    ensures { IfOk result (Ran scenario) }
{
    let Scenario {
        roots,
        options,
        patience,
        upstream,
        questions,
        turns,
    } = scenario;
    let (asked, turned) = (questions.items(), turns.items());
    match upstream {
        Upstream::Script(script) => {
            ran_script(alloc, &roots, options, patience, asked, turned, script)
        }
        Upstream::World(world) => {
            ran_world(alloc, &roots, options, patience, asked, turned, world)
        }
    }
}

/// The text of a transcript.
fn printed(alloc: Global, transcript: &Transcript) -> Result<Vec<u8>, NoMemory>
    requires { IsTrue (has_transcript_words transcript.now) }
    ensures { IfOk result (λ text. text.items ≡ transcript_text transcript.now) }
{
    let mut text = Vec::new(alloc);
    print_transcript(alloc, transcript, &mut text)?;
    Ok(text)
}

/// The transcript of a scenario, as text.
fn resolved(alloc: Global, scenario: Scenario) -> Result<Vec<u8>, NoMemory>
    requires { IsRunnable scenario }
    ensures { IfOk result (λ text. HasRun scenario text.items) }
{
    let transcript = ran(alloc, scenario)?;
    printed(alloc, &transcript)
}

/// What is written for a scenario.
fn answered(alloc: Global, bytes: &[u8], scenario: Scenario) -> Result<Vec<u8>, Fault>
    requires { Reads bytes.now scenario }
    ensures ok { IfOk result (λ text. HasOutput Command.Resolve bytes.now text.items) }
    ensures err { IfErr result (IsFaultOf Command.Resolve bytes.now) }
{
    match resolved(alloc, scenario) {
        Ok(text) => Ok(text),
        Err(_) => Err(Fault::Memory),
    }
}

/// What `resolve` writes for the bytes of a scenario, or the fault that ends the run.
#[tactic(auto, using(crate::proofs::UnreadTextIsTold::fault_fits))]
pub fn transcript_for(alloc: Global, bytes: &[u8]) -> Result<Vec<u8>, Fault>
    ensures ok { IfOk result (λ text. HasOutput Command.Resolve bytes.now text.items) }
    ensures err { IfErr result (IsFaultOf Command.Resolve bytes.now) }
{
    match read_scenario(alloc, bytes) {
        Ok(scenario) => answered(alloc, bytes, scenario),
        Err(error) => Err(fault_of(error)),
    }
}
