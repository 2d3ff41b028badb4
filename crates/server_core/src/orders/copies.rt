//! Copies of what was sent and of outcomes, which may want memory.

use crate::orders::order::{Outcome, SentBy};
use dns_core::{NoMemory, TryClone};
use std::alloc::Global;

impl TryClone for SentBy {
    fn try_clone(&self, alloc: Global) -> Result<Self, NoMemory> {
        let query = self.query.try_clone(alloc)?;
        Ok(SentBy {
            of: self.of,
            ip: self.ip,
            moment: self.moment,
            query,
        })
    }
}

impl TryClone for Outcome {
    fn try_clone(&self, alloc: Global) -> Result<Self, NoMemory> {
        match self {
            Outcome::Pending { entry, of } => Ok(Outcome::Pending {
                entry: *entry,
                of: *of,
            }),
            Outcome::Connected { entry, sent } => {
                let sent = sent.try_clone(alloc)?;
                Ok(Outcome::Connected {
                    entry: *entry,
                    sent,
                })
            }
            Outcome::Told {
                entry,
                sent,
                message,
            } => {
                let sent = sent.try_clone(alloc)?;
                let message = message.try_clone(alloc)?;
                Ok(Outcome::Told {
                    entry: *entry,
                    sent,
                    message,
                })
            }
            Outcome::Failed {
                entry,
                sent,
                refused,
                error,
            } => {
                let sent = sent.try_clone(alloc)?;
                let error = error.try_clone(alloc)?;
                Ok(Outcome::Failed {
                    entry: *entry,
                    sent,
                    refused: *refused,
                    error,
                })
            }
            Outcome::Slept => Ok(Outcome::Slept),
        }
    }
}
