//! Where chains of pointers end.
ghost use Rattle.std.specs.Prelude.{◌≡◌, ◌<◌, length, min, IfOk};
ghost use Rattle.wire_names.specs.Kept.{IsEndOf, AreEnds};

use crate::runs::lone_pointer;
use std::alloc::{AllocError, Global};

/// The end of a place, where those of the places before it are given.
fn end_of(message: &[u8], ends: &[u16], place: u16) -> u16
    requires within { place < length message.now }
    requires all { length ends.now ≡ place }
    requires ends { AreEnds message.now ends.now }
    ensures { IsEndOf message.now place result }
{
    let (_, bytes) = message.split_at(place as usize);
    let Some((to, _rest)) = lone_pointer(bytes) else {
        return place;
    };
    if to < ends.len() {
        return ends[to];
    }
    place
}

/// The end of each place of a message to which a pointer can lead.
pub fn ends_of(alloc: Global, message: &[u8]) -> Result<Vec<u16>, AllocError>
    ensures ends { IfOk result (λ ends. AreEnds message.now ends.items) }
    ensures all { IfOk result (λ ends. length ends.items ≡ min (length message.now) 16384) }
{
    let count = message.len().min(16384);
    let mut ends = Vec::with_capacity(alloc, count)?;
    for place in 0..count {
        let end = end_of(message, &ends, place as u16);
        ends.push(end)?;
    }
    Ok(ends)
}
