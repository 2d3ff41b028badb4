//! What is known of a lookup, by a log of what was told: what is sought by one that is under way and which
//! outcomes are those of its open order, what one came to, and what is kept of that. Most of it is
//! definitions and laws.
#![tactic(auto)]

mod answered;
mod keeping;
mod lookup_result;
mod order_targets;
mod pending_lookup;
mod settings;
mod threads;

pub use answered::{found_by, last_of};
pub use keeping::write_verdict;
pub use lookup_result::LookupResult;
pub use order_targets::{aim_of, first_of, is_memory, polled_by};
pub use pending_lookup::{OpenOrder, OrderTarget, PendingLookup};
pub use settings::asking::{connect_options, pool_context, request_options};
pub use settings::delays::{FirstDelay, first_delay};
