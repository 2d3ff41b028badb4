//! How a recursor goes on by aliases (RFC 1034 section 3.6.2): where those inside a response lead, and what
//! of a further response is appended.
#![tactic(auto)]

mod chain_laws;
mod following;
mod joining;

pub use chain_laws::responses_join_forwards;
pub use following::follow;
pub use joining::append;
