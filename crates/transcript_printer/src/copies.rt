//! Copies of transcripts.

use crate::transcript::Transcript;
use dns_core::{NoMemory, TryClone};
use std::alloc::Global;

impl TryClone for Transcript {
    fn try_clone(&self, alloc: Global) -> Result<Self, NoMemory> {
        let log = self.log.try_clone(alloc)?;
        let replies = self.replies.try_clone(alloc)?;
        Ok(Transcript { log, replies })
    }
}
