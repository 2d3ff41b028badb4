//! What the walks of a recursor stand on: the servers by their addresses, the pools of them, and the
//! lookups that are under way at these.
#![tactic(auto)]

mod lookup;
mod pools;
mod threads;

pub use lookup::{Lookup, Phase, QueryStep};
pub use pools::{Answer, Pools, PoolsStep};
