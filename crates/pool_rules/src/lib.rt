//! The rules by which a lookup at a pool goes from server to server: in which order they are asked, which
//! are asked again, which of their errors is kept, and what is left of an answer; and which requests
//! are for one lookup.
#![tactic(auto)]

mod answer_filter;
mod kept_error;
mod kept_error_laws;
mod key;
mod ordering;
mod pool_server;
mod retry_queue;
mod retry_queue_laws;
mod statistics;
mod threads;

pub use answer_filter::filtered;
pub use kept_error::most_specific;
pub use kept_error_laws::{the_earlier_negative_is_kept, the_kept_error_is_what_is_left};
pub use key::same_key;
pub use ordering::{concurrency_of, ordered};
pub use pool_server::{Heard, OnError, PoolServer};
pub use retry_queue::RetryQueue;
pub use retry_queue_laws::{
    a_deadline_ends_a_lookup, a_lookup_makes_few_sends, an_end_can_be_heard,
};
pub use statistics::sort_servers_by_query_statistics;
