//! Tests of what only calls of servers and pools show: servers, sends and lookups step by step, pools,
//! and the order of their servers. Each call that may want memory is called once here, where there is
//! memory.
//!
//! They stand here and not in the layers, since a crate with tests is proved once more with them.
#![tactic(auto)]

#[cfg(test)]
mod lookup_tests;
#[cfg(test)]
mod outcome_samples;
#[cfg(test)]
mod pool_samples;
#[cfg(test)]
mod pool_tests;
#[cfg(test)]
mod send_samples;
#[cfg(test)]
mod send_tests;
#[cfg(test)]
mod server_samples;
#[cfg(test)]
mod sharing_tests;
#[cfg(test)]
mod sights;
