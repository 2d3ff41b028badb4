//! What a log of exchanges says: which addresses serve a zone, what an answer rests on.
//!
//! These are definitions over the log alone. They know no cache, no queue and no order of work.
#![tactic(auto)]

mod base_script;
mod casing;
mod class;
mod failing;
mod following;
mod growing;
mod inventing;
mod orders;
mod strangers;
mod threads;
mod verdict;

pub use base_script::{an_alias_is_answered, the_base_script_is_answered};
pub use casing::{case_of_a_question_is_ignored, case_of_a_zone_is_ignored};
pub use class::Class;
pub use failing::{
    a_longer_log_keeps_failures, case_of_a_failure_is_ignored, kept_errors_are_the_least_bad,
    moments_decide_what_is_late, no_root_is_left_out,
};
pub use following::Follow;
pub use growing::{
    a_longer_log_keeps_answers, only_earlier_entries_are_read, patience_is_not_read,
};
pub use inventing::{
    no_address_is_invented, no_zone_is_served_unasked, nothing_counts_outside_a_zone,
};
pub use orders::{a_message_is_what_classify_says, above_is_an_order, same_is_an_order};
pub use strangers::{a_stranger_serves_nothing, stray_glue_serves_nothing};
pub use verdict::{Cause, Verdict};
