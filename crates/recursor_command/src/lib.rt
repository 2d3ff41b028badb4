//! The commands over any source and sink, how they end, and what they write where they fail: `resolve`, a
//! scenario in and a transcript out; `check`, a scenario over a world in and what there is to tell of it out;
//! and `decode`, the bytes of a message in and its text out.
#![tactic(auto)]

mod checking;
mod command;
mod decoding;
mod faults;
mod resolving;
mod status;
mod threads;
mod words;

pub use command::run;
pub use faults::{Fault, say};
pub use status::Status;
