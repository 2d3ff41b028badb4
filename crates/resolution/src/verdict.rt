//! What a response counts for, seen from a zone of its teller.

use dns_core::{Message, NoRecords};

/// What left nothing of an answer: the filter of answers, or the bounds of the zone.
#[derive(Clone, Copy, Debug, PartialEq, Eq)]
pub enum Cause {
    Filter,
    Zone,
}

/// What a response counts for: an answer, less what the filter and the zone leave out; a negative;
/// or a denial made of an answer of which nothing was left.
#[derive(Drop, Debug, PartialEq, Eq)]
pub enum Verdict {
    Pos(Message),
    Neg(NoRecords),
    Made(Cause),
}
