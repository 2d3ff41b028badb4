//! What stands for the servers of the world where there are none: scripts and worlds, the check of a world,
//! and the upstream that each of them is.
#![tactic(auto)]

pub use script_upstream::{Script, ScriptExchange, ScriptLine, ScriptOpening, ScriptUpstream};
pub use world_check::{Verdict, WorldFilters, check_indexed, check_world};
pub use world_upstream::{WorldExchange, WorldOpening, WorldUpstream};
pub use zone_worlds::{
    Host, IndexedWorld, World, WorldAnswer, Zone, told, valid_question, world_answer,
};
