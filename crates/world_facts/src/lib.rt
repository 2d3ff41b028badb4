//! What the log of a well-served world tells: who serves a zone, where a cut is, what the deepest zone
//! answers and denies, and that no lookup fails. Laws over logs, and no code.
#![tactic(auto)]

mod answering;
mod checked;
mod counting;
mod cuts;
mod deepest;
mod denying;
mod failing;
mod giving;
mod glue;
mod rows;
mod serving;
mod witness;

pub use answering::the_deepest_zone_answers_as_the_world;
pub use checked::check_world_says_so;
pub use counting::what_a_world_tells_counts_whole;
pub use cuts::where_no_cut_is_shown_there_is_none;
pub use deepest::a_walk_to_its_end_finds_the_deepest_zone;
pub use denying::a_denial_is_the_worlds;
pub use failing::no_lookup_fails;
pub use giving::a_world_tells_its_log;
pub use glue::no_delegation_is_glueless;
pub use rows::no_other_error_has_a_cause;
pub use serving::who_serves_a_zone_serves_it_in_the_world;
pub use witness::a_world_serves_well;
