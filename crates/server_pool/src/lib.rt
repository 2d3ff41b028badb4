//! Pools of servers: the lookups at them, each of which all requests of its key share, and what the pools
//! share. The rules by which servers are asked again are those of `pool_rules`, and one lookup is one of
//! `pool_lookup`; the lookups that are under way stand under their numbers by `pool_lookups`; what is
//! ordered for a pool is carried out by `order_carrier`.
#![tactic(auto)]

mod interest;
mod new_pool;
mod open_lookups;
mod pool;
mod pool_laws;
mod pool_shared;
mod table_laws;
mod threads;

pub use interest::PoolLookup;
pub use open_lookups::beginning::add_begun;
pub use open_lookups::open_lookup::{
    OpenLookup, is_last, is_open_in, join_at, leave_at, open_for, put_at, step_at, take_lookup,
};
pub use open_lookups::orders::{drop_closed, keep_order, take_out};
pub use open_lookups::reached::usable_servers;
pub use pool::NameServerPool;
pub use pool_laws::a_pool_expires_after_its_ttl;
pub use pool_rules::{
    PoolServer, a_deadline_ends_a_lookup, a_lookup_makes_few_sends, filtered, most_specific,
    ordered, sort_servers_by_query_statistics, the_earlier_negative_is_kept,
    the_kept_error_is_what_is_left,
};
pub use pool_shared::{PoolShared, PoolStep};
pub use table_laws::{
    a_lookup_runs_by_its_ends, a_step_changes_one_lookup, an_order_goes_to_a_server,
};
