//! Copies of scripts.
ghost use Rattle.std.specs.Prelude.{◌≡◌, IfOk};

use crate::script::script::{Script, ScriptLine};
use dns_core::{NoMemory, TryClone};
use std::alloc::Global;

/// A copy of what a question comes to.
fn outcome_copy<T: TryClone, E: TryClone>(
    alloc: Global,
    outcome: &Result<T, E>,
) -> Result<Result<T, E>, NoMemory>
    ensures { IfOk result (λ copy. copy ≡ outcome.now) }
{
    match outcome {
        Ok(told) => Ok(Ok(told.try_clone(alloc)?)),
        Err(error) => Ok(Err(error.try_clone(alloc)?)),
    }
}

impl TryClone for ScriptLine {
    fn try_clone(&self, alloc: Global) -> Result<Self, NoMemory> {
        match self {
            ScriptLine::Connect {
                ip,
                protocol,
                delay,
                error,
            } => {
                let error = error.try_clone(alloc)?;
                Ok(ScriptLine::Connect {
                    ip: *ip,
                    protocol: *protocol,
                    delay: *delay,
                    error,
                })
            }
            ScriptLine::Refuse { ip, protocol } => Ok(ScriptLine::Refuse {
                ip: *ip,
                protocol: *protocol,
            }),
            ScriptLine::Reply {
                ip,
                protocol,
                name,
                query_type,
                delay,
                outcome,
            } => {
                let name = name.try_clone(alloc)?;
                let outcome = outcome_copy(alloc, outcome)?;
                Ok(ScriptLine::Reply {
                    ip: *ip,
                    protocol: *protocol,
                    name,
                    query_type: *query_type,
                    delay: *delay,
                    outcome,
                })
            }
        }
    }
}

impl TryClone for Script {
    fn try_clone(&self, alloc: Global) -> Result<Self, NoMemory> {
        let lines = self.lines.try_clone(alloc)?;
        Ok(Script { lines })
    }
}
