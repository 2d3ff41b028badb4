//! What a walk looks for, what a response that was told counts for, the servers that a delegation gives,
//! and what a question is answered with. All of it is values: who is asked, and what was told, is the
//! caller's.
#![tactic(auto)]

mod answer;
mod candidate;
mod class;
mod glue;
mod kept;
mod response;
mod verdict;

pub use answer::{ends_walk, just, made_error, outcome_of, reply_by, told_negative};
pub use candidate::{candidate_query, walked_name};
pub use class::class_of;
pub use glue::{collect_glue, is_delegation};
pub use kept::verdict_kept;
pub use response::verdict_of_class;
pub use verdict::{scrub_answer, scrub_negative};
