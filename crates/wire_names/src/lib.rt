//! Names in wire form (RFC 1035 sections 3.1 and 4.1.4): their reader, which is the grammar, names that
//! were read before, and their writer.
#![tactic(auto)]

mod ends;
mod errors;
mod kept;
mod labels;
mod names;
mod runs;
mod threads;
mod writing;

pub use errors::WireError;
pub use kept::{KeptName, KeptNames};
pub use names::read_name;
pub use runs::first_of;
pub use writing::{name_length, write_name};
