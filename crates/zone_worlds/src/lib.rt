//! Worlds: trees of zones with the hosts that serve them, as an upstream that is given whole.
//!
//! `told` is what an address tells for a question (`Tells`), and `world_answer` what the world answers
//! to it, whoever is asked (`Answers`). `valid_question` says which questions a recursor must answer as
//! the world does (`IsValid`). An `IndexedWorld` says the same of its world by look-ups, which it makes
//! ready once; `told` alone goes through the zones name by name, as its definition does.
#![tactic(auto)]

mod answer;
mod index;
mod indexed;
mod laws;
mod records;
mod telling;
mod threads;
mod valid;
mod way;

pub use answer::world_answer;
pub use indexed::IndexedWorld;
pub use laws::{a_world_answers_once, an_address_tells_one_message};
pub use telling::told;
pub use valid::valid_question;
pub use zone_rules::{Host, World, WorldAnswer, Zone, is_above, is_alias, is_ns_of, is_soa_of};
