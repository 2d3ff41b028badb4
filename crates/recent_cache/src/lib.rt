//! A cache of bounded size, the last used first: what is used least leaves first.
//!
//! A contract sees the list of its keys and values. The hash is not seen: neither what is found nor what
//! leaves depends on it.
#![tactic(auto)]

mod cache;
mod hash_keys;
mod threads;

pub use cache::RecentCache;
pub use hash_keys::HashKeys;
