//! Copies of scenarios.

use crate::scenario::{Scenario, Upstream};
use dns_core::{Items, NoMemory, TryClone};
use std::alloc::Global;

impl TryClone for Upstream {
    fn try_clone(&self, alloc: Global) -> Result<Self, NoMemory> {
        match self {
            Upstream::Script(script) => Ok(Upstream::Script(script.try_clone(alloc)?)),
            Upstream::World(world) => Ok(Upstream::World(world.try_clone(alloc)?)),
        }
    }
}

impl TryClone for Scenario {
    fn try_clone(&self, alloc: Global) -> Result<Self, NoMemory> {
        let roots = self.roots.try_clone(alloc)?;
        let options = self.options.try_clone(alloc)?;
        let upstream = self.upstream.try_clone(alloc)?;
        let questions = self.questions.try_clone(alloc)?;
        let turns = Vec::from_slice(alloc, self.turns.items())?;
        Ok(Scenario {
            roots,
            options,
            patience: self.patience,
            upstream,
            questions,
            turns: Items::new(turns),
        })
    }
}
