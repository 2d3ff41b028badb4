//! Upstreams in memory: scripts, which say line by line what is told of each connection and each
//! question.
//!
//! A `ScriptUpstream` is a provider of connections whose log is, at every moment, one that its script
//! gives (`Gives`).
#![tactic(auto)]

mod books;
mod courses;
mod laws;
mod provider;
mod script;
mod threads;
mod upstream;

pub use books::book::ScriptLog;
pub use courses::course::{ScriptedReply, Stage};
pub use courses::index::{Asking, Endpoint, Index, Route, Turns};
pub use laws::fronts_are_given;
pub use provider::{ScriptExchange, ScriptOpening};
pub use script::late::{Room, UnrecordedEntries, push_or_back};
pub use script::script::{Script, ScriptLine};
pub use upstream::ScriptUpstream;
