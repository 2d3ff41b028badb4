//! One question: its walk from the roots down the delegations to the servers of its name, and the question
//! itself at these, one lookup at a time, before each of which comes what the cache has. Whoever steps it
//! lends it the pools and the cache: it takes no outcome, and knows of no other question.
#![tactic(auto)]

mod resolving;
mod short_way;
mod steps;
mod threads;

pub use resolving::{NextStep, Resolution, State};
pub use steps::Step;
