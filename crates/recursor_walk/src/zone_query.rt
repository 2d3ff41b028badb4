//! A question at the servers of a zone: what the cache has for it comes first, then it is asked at all of
//! them; what counts for it, and the reply with that. The question itself is asked so, and so is each
//! candidate of the walk to the servers of its name.

pub mod asking;
pub mod sourced_verdict;
pub mod threads;
