//! What a recursor is handed and what it answers: its options, the policy that they make, its errors with their parts, and the
//! reply to a question. The recursor and the texts of scenarios and transcripts stand on it.
#![tactic(auto)]

mod copies;
mod error;
mod error_text;
mod options;
mod policy;
mod reply;
mod threads;

pub use error::{AuthorityData, MessageKind, RecursorError, WalkCause};
pub use options::RecursorOptions;
pub use policy::Policy;
pub use reply::Reply;
