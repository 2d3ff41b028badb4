//! What has come of a whole scenario so far: a draft, and beside it that of a world where it is told one.
ghost use Rattle.std.specs.Prelude.{◌≡◌, Some, None, IfOk};
ghost use Rattle.recursor_text.specs.WorldSteps.{Steps};
ghost use Rattle.recursor_text.specs.Steps.{is_ended};
ghost use Rattle.recursor_text.specs.Whole.{is_told_world, in_world, place_beside, told_from, start, plain_taken, world_taken, late_taken, beside_taken, taken, scenario_of, place_of};

use super::draft::{Draft, Place, Stage};
use crate::scenario::{Scenario, Upstream};
use crate::world_reading::draft::WorldDraft;
use crate::world_reading::lines::is_world_line;
use dns_core::NoMemory;
use std::alloc::Global;
use text_lines::LineError;

/// The draft of a scenario. One that is told a world has no rules.
#[derive(Drop)]
pub struct WholeDraft {
    pub draft: Draft,
    pub world: Option<WorldDraft>,
}

fn is_told_world(line: &[u8]) -> bool
    ensures { result ≡ is_told_world line.now }
{
    line == b"told world".as_slice()
}

/// Whether a line is one of the world.
fn in_world(world: &WorldDraft, draft: &Draft, line: &[u8]) -> bool
    ensures { result ≡ in_world world.now draft.now line.now }
{
    draft.is_told() && (world.owes() || is_world_line(line))
}

/// Where the next line stands, beside the world.
fn place_beside(draft: &Draft, world: &WorldDraft) -> Place
    ensures { result ≡ place_beside world.now draft.now }
{
    let place = draft.place();
    let stage = if !world.may_close() {
        Stage::Start
    } else if draft.is_told() {
        Stage::Asked
    } else {
        place.stage
    };
    Place {
        stage,
        owes: world.owes(),
        ..place
    }
}

impl WholeDraft {
    pub fn new(alloc: Global) -> Self
        ensures { result ≡ start }
    {
        WholeDraft {
            draft: Draft::new(alloc),
            world: None,
        }
    }

    pub fn is_ended(&self) -> bool
        ensures { result ≡ is_ended self.now.draft.stage }
    {
        self.draft.is_ended()
    }

    /// Where the next line stands.
    pub fn place(&self) -> Place
        ensures { result ≡ place_of self.now }
    {
        match &self.world {
            Some(world) => place_beside(&self.draft, world),
            None => self.draft.place(),
        }
    }

    pub fn into_scenario(self, alloc: Global) -> Result<Scenario, NoMemory>
        ensures { IfOk result (λ scenario. scenario ≡ scenario_of self) }
    {
        let scenario = self.draft.into_scenario(alloc)?;
        Ok(told_from(scenario, self.world))
    }

    /// Takes the next line, where no world is told yet.
    fn take_plain(&mut self, alloc: Global, line: &[u8]) -> Result<(), LineError>
        requires { self.old.world ≡ None }
        ensures { Steps result self.new (plain_taken self.old.draft line.now) }
    {
        if self.draft.may_tell() && is_told_world(line) {
            self.draft.tell();
            self.world = Some(WorldDraft::new(alloc));
            return Ok(());
        }
        self.draft.take(alloc, line)?;
        Ok(())
    }

    /// Goes on with this world.
    fn go_on(&mut self, world: WorldDraft)
        ensures { self.new ≡ record self.old { world = Some world } }
    {
        self.world = Some(world);
    }

    /// Takes a line of this world.
    fn take_of_world(
        &mut self,
        alloc: Global,
        told: WorldDraft,
        line: &[u8],
    ) -> Result<(), LineError>
        ensures { Steps result self.new (world_taken told self.old.draft line.now) }
    {
        let mut world = told;
        match world.take(alloc, line) {
            Ok(()) => {
                self.go_on(world);
                Ok(())
            }
            Err(error) => {
                drop(world);
                Err(error)
            }
        }
    }

    /// Takes a line after those of this world, where it is whole.
    fn take_late(&mut self, alloc: Global, told: WorldDraft, line: &[u8]) -> Result<(), LineError>
        ensures { Steps result self.new (late_taken told self.old.draft line.now) }
    {
        if !told.may_close() {
            drop(told);
            return Err(LineError::Refused);
        }
        match self.draft.take_late(alloc, line) {
            Ok(()) => {
                self.go_on(told);
                Ok(())
            }
            Err(error) => {
                drop(told);
                Err(error)
            }
        }
    }

    /// Takes the next line, where this world is told.
    fn take_beside(&mut self, alloc: Global, told: WorldDraft, line: &[u8]) -> Result<(), LineError>
        ensures { Steps result self.new (beside_taken told self.old.draft line.now) }
    {
        if in_world(&told, &self.draft, line) {
            self.take_of_world(alloc, told, line)
        } else {
            self.take_late(alloc, told, line)
        }
    }

    /// Takes the next line. After an error the draft is of no use.
    pub fn take(&mut self, alloc: Global, line: &[u8]) -> Result<(), LineError>
        ensures { Steps result self.new (taken self.old line.now) }
    {
        match self.world.take() {
            Some(world) => self.take_beside(alloc, world, line),
            None => self.take_plain(alloc, line),
        }
    }
}

/// The scenario, told from a world where there is one.
fn told_from(framed: Scenario, world: Option<WorldDraft>) -> Scenario
    ensures { result ≡ told_from framed world }
{
    match world {
        Some(world) => Scenario {
            upstream: Upstream::World(world.into_world()),
            ..framed
        },
        None => framed,
    }
}
