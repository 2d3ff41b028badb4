//! The rules by which a world of zones is read, each as a function of values: where its zones lie, which
//! records of a zone an answer takes, which alias is followed next, and which ways of names are short.
#![tactic(auto)]

mod aliases;
mod choosing;
mod copies;
mod short;
mod threads;
mod tree;
mod world;

pub use aliases::{is_met, next_alias};
pub use choosing::{
    Alias, alias_in, is_alias, is_ns_of, is_soa_of, owned, server_addresses, servers, soa_of,
};
pub use short::is_short;
pub use tree::{first_cut, is_above, nearest, walked, zone_among};
pub use world::{Host, World, WorldAnswer, Zone};
