//! The lines of worlds: what each says on its own, and what has come of a world so far.

pub mod counts;
pub mod draft;
pub mod laws;
pub mod lines;
pub mod listed;
pub mod threads;
