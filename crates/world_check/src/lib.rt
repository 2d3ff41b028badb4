//! Whether a world is well served: its zones lie as they are delegated, and each is served by those to
//! whom it is delegated, so that a recursor finds every answer in it.
//!
//! `check_world` tells the lowest of the seven clauses that fails (`IsVerdict`). It compares every record
//! with every zone, as the clauses say it; `check_indexed` tells the same of an `IndexedWorld` by look-ups.
#![tactic(auto)]

mod filters;
mod looked_up;
mod serving;
mod threads;
mod verdict;

pub use filters::WorldFilters;
pub use verdict::{Verdict, check_indexed, check_world};
