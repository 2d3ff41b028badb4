//! One lookup of a request at the servers of a pool: in rounds, each asking some servers side by side,
//! until an end decides it, no server is left, or its time is over.
//!
//! The layer above sees one value, `LookupState`, and each step as a function of it. What it promises of
//! every lookup, whatever its servers answer, is `Holds`.
#![tactic(auto)]

mod asked;
mod attempt;
mod backoff;
mod giving;
mod hearing;
mod lookup;
mod lookup_laws;
mod losers;
mod rounds;
mod running_laws;
mod threads;

pub use attempt::Attempt;
pub use giving::{LookupStep, Want};
pub use lookup::{Lookup, State};
pub use lookup_laws::{
    a_lookup_is_fair, a_lookup_waits_for_an_order, servers_stay_reached, what_holds_stays,
    what_it_was_begun_with_stays,
};
pub use running_laws::{
    a_lookup_is_decided_by_a_step, a_lookup_opens_what_it_gives, a_lookup_sends_to_its_servers,
    a_lookup_stands_by_its_ends, an_order_that_is_kept_stays_open,
};
