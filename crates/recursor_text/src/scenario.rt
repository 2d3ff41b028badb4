//! Scenarios: what a recursor is run on.
ghost use Rattle.std.specs.Prelude.{◌≡◌, ℕ, List, IfOk, IfErr};
ghost use Rattle.recursor_text.specs.Spelling.{Reads};
ghost use Rattle.recursor_text.specs.Faults.{HasFault};
ghost use Rattle.recursor_text.specs.Reading.{GivesScenario, scenario_in};

use crate::reading::text::read_lines;
use dns_core::{Ips, Items, Question, Turn};
use recursor_types::RecursorOptions;
use script_upstream::Script;
use std::alloc::Global;
use zone_worlds::World;

/// What a whole text says: the roots, how the recursor is set, what it is told, and what it is
/// asked in which turns. `patience` is how often an order is polled in vain before it is given up.
#[derive(Drop, Debug)]
pub struct Scenario {
    pub roots: Ips,
    pub options: RecursorOptions,
    pub patience: u32,
    pub upstream: Upstream,
    pub questions: Items<Question>,
    pub turns: Items<Turn>,
}

/// Where a recursor is told its answers from.
#[derive(Drop, Debug)]
pub enum Upstream {
    Script(Script),
    World(World),
}

/// Why a text is no scenario.
#[derive(Clone, Copy, Debug, PartialEq, Eq)]
pub enum Cause {
    /// A line cannot stand where it stands.
    Line,
    /// A line of the format is not read yet.
    NotBuilt,
    /// The text ends before its end line.
    Cut,
    /// The text has more than 16,777,216 bytes.
    Long,
    NoMemory,
}

/// Where a text is no scenario, and why. Lines are counted from 1.
#[derive(Clone, Copy, Debug, PartialEq, Eq)]
pub struct ScenarioError {
    pub line: u32,
    pub cause: Cause,
}

/// The scenario that a text spells. The line of `NoMemory` is free.
pub fn read_scenario(alloc: Global, bytes: &[u8]) -> Result<Scenario, ScenarioError>
    // What is read is spelled so.
    ensures found { IfOk result (λ s. Reads bytes.now s) }
    // What is spelled so is read, unless memory runs out.
    ensures only { (s : Scenario) → Reads bytes.now s → GivesScenario result (Ok s) }
    // The line of an error is the first that cannot stand where it stands, or the one that is cut off.
    ensures line { IfErr result (λ e. HasFault bytes.now e.line e.cause) }
    // Which fault it is.
    ensures exact { GivesScenario result (scenario_in bytes.now) }
{
    read_lines(alloc, bytes)
}

/// A text spells one scenario at most.
pub fn one_reading()
    ensures { (bytes : List ℕ) (s t : Scenario) → Reads bytes s → Reads bytes t → s ≡ t }
{}
