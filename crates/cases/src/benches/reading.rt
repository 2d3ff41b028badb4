//! Messages in wire form, which are read.

use crate::benches::failure::Failure;
use dns_wire::{WireError, read};
use std::alloc::Global;

/// Whether these bytes are a message.
fn is_read(alloc: Global, bytes: &[u8]) -> Result<bool, Failure> {
    match read(alloc, bytes) {
        Ok(_) => Ok(true),
        Err(WireError::NoMemory) => Err(Failure::NoMemory),
        Err(_) => Ok(false),
    }
}

/// Reads these bytes so often, and counts how often they are a message.
pub fn count_read(alloc: Global, bytes: &[u8], times: u32) -> Result<usize, Failure> {
    let mut count: usize = 0;
    for _ in 0..times {
        if is_read(alloc, bytes)? {
            count = count.saturating_add(1);
        }
    }
    Ok(count)
}
