//! Values that are told and then let go.

use dns_core::NoMemory;
use std::alloc::Global;

/// What can be told as lines of text.
pub trait Lines {
    fn lines(&self, alloc: Global) -> Result<String, NoMemory>;
}

/// The lines of a value that is not used again: to let a large value go in one place, which does not know
/// it, is cheap to prove.
pub fn lines_of<T: Lines + Drop>(alloc: Global, value: T) -> Result<String, NoMemory> {
    value.lines(alloc)
}
