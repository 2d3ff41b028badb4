//! The lookups at pools that are under way, by their numbers, and the orders that were given for them: each
//! function here changes, or reads, one of them. And the servers of a pool, as a lookup sees them.

pub mod beginning;
pub mod open_lookup;
pub mod orders;
pub mod reached;
pub mod threads;
