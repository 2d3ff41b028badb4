//! Why a run stops.

use dns_core::NoMemory;
use std::alloc::{AllocError, AllocFailed};

/// Why a run stops.
#[derive(Clone, Copy, Debug)]
pub enum Failure {
    /// The words name no run.
    Words,
    /// This line of the scenario is none, or not built.
    Line(u32),
    /// A name of the scenario is not fully qualified.
    Unqualified,
    /// The recursor is refused.
    Refused,
    NoMemory,
}

impl From<NoMemory> for Failure {
    fn from(_e: NoMemory) -> Failure {
        Failure::NoMemory
    }
}

impl From<AllocError> for Failure {
    fn from(_e: AllocError) -> Failure {
        Failure::NoMemory
    }
}

impl<T: Drop> From<AllocFailed<T>> for Failure {
    fn from(_e: AllocFailed<T>) -> Failure {
        Failure::NoMemory
    }
}
