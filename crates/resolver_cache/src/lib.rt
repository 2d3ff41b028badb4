//! Responses, kept for as long as their records allow (RFC 1035 section 3.2.1, RFC 2308 section 5):
//! what is written under which question, how long it is current, and how it reads later.
//!
//! The layer above sees one value, `Cached`: the size, the bounds of TTLs, and the entries in the
//! order in which they were written. No question has two entries.
#![tactic(auto)]

mod bounds;
mod cache;
mod index;
mod laws;
mod life;
mod threads;
mod writings;

pub use bounds::ReversedTtl;
pub use cache::ResponseCache;
pub use kept_responses::{CachedResponse, Entry, KeptEntry, read_message};
pub use laws::{a_write_adds_one_response_alone, what_is_read_is_current};
pub use life::seconds_between;
