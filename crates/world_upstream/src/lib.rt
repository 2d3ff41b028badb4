//! Worlds as upstreams: each address of a tree of zones tells what the zones that it serves say.
//!
//! A `WorldUpstream` is a provider of connections whose log is, at every moment, one that its world
//! gives (`Gives`): nothing is refused, and each question waits for the world's delay and is then told
//! what its address tells for it.
#![tactic(auto)]

mod book;
mod laws;
mod provider;
mod qualified;
mod threads;
mod upstream;

pub use laws::fronts_are_given;
pub use provider::{WorldExchange, WorldOpening};
pub use qualified::is_qualified_world;
pub use upstream::WorldUpstream;
