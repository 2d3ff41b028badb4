//! The command `check`: a scenario over a world in, and what there is to tell of it out.
ghost use Rattle.std.specs.Prelude.{◌≡◌, ◌≢◌, ◌≤◌, length, None, Some, Ok, Err, IfOk, IfErr};
ghost use Rattle.text_lines.specs.Pieces.{pieces};
ghost use Rattle.recursor_text.specs.Reading.{GivesScenario, scenario_in};
ghost use Rattle.recursor_command.specs.Command.{HasOutput, IsFaultOf};
ghost use Rattle.recursor_command.specs.Checking.{HasFindings, first_told, is_at_line, earlier_fault};

use crate::faults::{Fault, fault_of};
use crate::words::Command;
use recursor_text::{Cause, Scenario, ScenarioError, Upstream, read_scenario};
use std::alloc::Global;
use text_lines::cut;
use transcript_printer::check_text;
use zone_worlds::World;

/// The number of the first line that says that a script is told, where one does; lines count from 1.
fn script_line(bytes: &[u8]) -> Option<u32>
    requires { length bytes.now ≤ 16777216 }
    ensures { result ≡ first_told 1 (pieces 10 bytes.now) }
{
    let mut rest = bytes;
    let mut number: u32 = 1;
    'lines: loop {
        let (line, after) = cut(rest, b'\n');
        let Some(after) = after else {
            return None;
        };
        if line == b"told script".as_slice() {
            return Some(number);
        }
        number += 1;
        rest = after;
    }
}

/// Whether a text fails at one of its lines.
fn is_at_line(cause: Cause) -> bool
    ensures { result ≡ is_at_line cause }
{
    match cause {
        Cause::Line | Cause::Cut | Cause::NotBuilt => true,
        Cause::Long | Cause::NoMemory => false,
    }
}

/// The fault of a text that fails at a line, where this line says that a script is told.
fn earlier_fault(script: Option<u32>, error: ScenarioError) -> Fault
    ensures { result ≡ earlier_fault script error }
{
    match script {
        Some(line) if line < error.line => Fault::Line(line),
        _ => fault_of(error),
    }
}

/// The fault of a text that is no scenario.
fn unread_fault(bytes: &[u8], error: ScenarioError) -> Fault
    requires { GivesScenario (Err error) (scenario_in bytes.now) }
    ensures { IsFaultOf Command.Check bytes.now result }
{
    if !is_at_line(error.cause) {
        return fault_of(error);
    }
    earlier_fault(script_line(bytes), error)
}

/// The number of the line that says that a script is told.
fn told_line(bytes: &[u8]) -> u32
    requires short { length bytes.now ≤ 16777216 }
    requires told { first_told 1 (pieces 10 bytes.now) ≢ None }
    ensures { first_told 1 (pieces 10 bytes.now) ≡ Some result }
{
    match script_line(bytes) {
        Some(line) => line,
        None => unreachable!(),
    }
}

/// What there is to tell of the world of a scenario.
fn world_text(alloc: Global, world: &World, scenario: &Scenario) -> Result<Vec<u8>, Fault>
    requires { scenario.now.upstream ≡ Upstream.World world.now }
    ensures ok { IfOk result (λ text. HasFindings scenario.now text.items) }
    ensures err { IfErr result (λ fault. fault ≡ Fault.Memory) }
{
    let (roots, questions) = (scenario.roots.items(), scenario.questions.items());
    match check_text(
        alloc,
        world,
        roots,
        &scenario.options,
        scenario.patience,
        questions,
    ) {
        Ok(text) => Ok(text),
        Err(_) => Err(Fault::Memory),
    }
}

/// What is written for a scenario.
fn checked(alloc: Global, bytes: &[u8], scenario: &Scenario) -> Result<Vec<u8>, Fault>
    requires { scenario_in bytes.now ≡ Ok scenario.now }
    ensures ok { IfOk result (λ text. HasOutput Command.Check bytes.now text.items) }
    ensures err { IfErr result (IsFaultOf Command.Check bytes.now) }
{
    match &scenario.upstream {
        Upstream::World(world) => world_text(alloc, world, scenario),
        Upstream::Script(_) => Err(Fault::Line(told_line(bytes))),
    }
}

/// What `check` writes for the bytes of a scenario, or the fault that ends the run.
pub fn findings_for(alloc: Global, bytes: &[u8]) -> Result<Vec<u8>, Fault>
    ensures ok { IfOk result (λ text. HasOutput Command.Check bytes.now text.items) }
    ensures err { IfErr result (IsFaultOf Command.Check bytes.now) }
{
    match read_scenario(alloc, bytes) {
        Ok(scenario) => checked(alloc, bytes, &scenario),
        Err(error) => Err(unread_fault(bytes, error)),
    }
}
