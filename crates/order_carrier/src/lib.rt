//! Carries orders out over a provider: starts each once, polls it until its outcome comes, and hands
//! that out once, with the number of the log entry that says it. What a call did is one value, and the
//! entries that it appended, what it handed out and where the order stands after it follow from that
//! (`specs/Did.antt`).
#![tactic(auto)]

mod awaited;
mod calling;
mod carrier;
mod giving_up;
mod in_flight;
mod key;
mod order_state;
mod polling;
mod sent;
mod starting;
mod threads;
mod under_way;

pub use carrier::Carrier;
pub use in_flight::runner::{InFlight, InFlightOrder};
