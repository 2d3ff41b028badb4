//! The walk of a question from the roots down the delegations to the servers of its name, and a question at
//! the servers of a zone: at each candidate of the walk, and at last the question itself, what the cache has
//! comes first (RFC 1034 section 5.3.3).
#![tactic(auto)]

mod threads;
mod walk;
mod zone_query;

pub use walk::{Walk, WalkOutcome};
pub use zone_query::asking::{ZoneQuery, answer_with};
pub use zone_query::sourced_verdict::{SourcedVerdict, answerable, from_cache};
