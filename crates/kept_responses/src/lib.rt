//! What a cache keeps of a response: under which question, from when to when, and from which entry of the
//! log; and how it reads some seconds later (RFC 1035 section 3.2.1).
#![tactic(auto)]

mod entry;
mod kept_entry;
mod lowering;
mod reading;
mod threads;

pub use entry::{CachedResponse, Entry};
pub use kept_entry::KeptEntry;
pub use reading::read_message;
