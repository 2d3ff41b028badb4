//! The recursor: it goes from the roots down the delegations to the servers of a name, and asks them.
#![tactic(auto)]

mod driving;
mod machine;
mod recursor;
mod run;
mod threads;
mod turns;

pub use driving::drive;
pub use machine::plays::{
    QuestionState, begin_at, is_waiting, leave_unanswered, put_answer, replies, under_way, waiting,
};
pub use machine::resolutions::RecursorCore;
pub use order_carrier::Carrier;
pub use recursor::Recursor;
pub use recursor_types::{
    AuthorityData, MessageKind, RecursorError, RecursorOptions, Reply, WalkCause,
};
