//! A whole text, line by line.
ghost use Rattle.std.specs.Prelude.{◌≡◌};
ghost use Rattle.recursor_text.specs.Reading.{GivesScenario, finish, fails_at, cause_of, scenario_in};
ghost use Rattle.recursor_text.specs.Unbuilt.{refusal_at};

use super::draft::{Place, Refusal};
use super::refusal::refusal;
use super::whole::WholeDraft;
use crate::scenario::{Cause, Scenario, ScenarioError};
use std::alloc::Global;
use text_lines::{LineError, cut};

/// How many bytes a text may have.
const MOST: usize = 16_777_216;

fn fails_at(line: u32, cause: Cause) -> Result<Scenario, ScenarioError>
    ensures { result ≡ fails_at line cause }
{
    Err(ScenarioError { line, cause })
}

/// The end of a text, where `rest` follows its last line feed.
fn finish(
    alloc: Global,
    draft: WholeDraft,
    line: u32,
    rest: &[u8],
) -> Result<Scenario, ScenarioError>
    ensures { GivesScenario result (finish draft line rest.now) }
{
    if !draft.is_ended() {
        drop(draft);
        return fails_at(line, Cause::Cut);
    }
    if !rest.is_empty() {
        drop(draft);
        return fails_at(line, Cause::Line);
    }
    match draft.into_scenario(alloc) {
        Ok(scenario) => Ok(scenario),
        Err(_) => fails_at(line, Cause::NoMemory),
    }
}

/// What a line is told as that is not taken at its place.
fn refuse(alloc: Global, place: Place, number: u32, line: &[u8]) -> Result<Scenario, ScenarioError>
    ensures { GivesScenario result (fails_at number (cause_of (refusal_at place line.now))) }
{
    match refusal(alloc, place, line) {
        Ok(Refusal::Bad) => fails_at(number, Cause::Line),
        Ok(Refusal::NotBuilt) => fails_at(number, Cause::NotBuilt),
        Err(_) => fails_at(number, Cause::NoMemory),
    }
}

/// The scenario that a text spells.
#[tactic(auto, unfolding(crate::specs::Reading::read_from))]
pub fn read_lines(alloc: Global, bytes: &[u8]) -> Result<Scenario, ScenarioError>
    ensures { GivesScenario result (scenario_in bytes.now) }
{
    if bytes.len() > MOST {
        return fails_at(0, Cause::Long);
    }
    let mut draft = WholeDraft::new(alloc);
    let mut rest = bytes;
    let mut number: u32 = 1;
    'lines: loop {
        let (line, after) = cut(rest, b'\n');
        let Some(after) = after else {
            return finish(alloc, draft, number, line);
        };
        let place = draft.place();
        match draft.take(alloc, line) {
            Ok(()) => {}
            Err(LineError::Refused) => {
                drop(draft);
                return refuse(alloc, place, number, line);
            }
            Err(LineError::NoMemory) => {
                drop(draft);
                return fails_at(number, Cause::NoMemory);
            }
        }
        number += 1;
        rest = after;
    }
}
