//! What tests of calls are made of: questions, records, messages and settings, and how what is found is
//! compared with what is wanted. Crates of tests stand on it.
//!
//! Large values are handed to generic functions, which let go of them: a body that keeps one alive, or
//! asks for several, is dear to prove.
#![tactic(auto)]

mod comparing;
mod messages;
mod settings;

pub use comparing::{Machine, Sight, both, comes_to, is_wanted, put, put_in, runs, seen, shown};
pub use messages::{
    address, alias, answer, authority, domain, ip, message, name_server, one, query, query_of,
    record, referral, request, response, soa, v4,
};
pub use settings::{filter, options, plain};
