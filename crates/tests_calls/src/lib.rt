//! Tests of what only calls show, beside the pools: copies, streams, settings, and what is printed; caches of
//! bounded size, and aliases; and in `log_calls` the cache of responses, the plain programs of the definitions,
//! and a world that is asked by a scan. Each call that may run out of memory, and that no command makes, is
//! called once here, where there is memory.
//!
//! They stand here and not in the layers, since a crate with tests is proved once more with them.
#![tactic(auto)]

#[cfg(test)]
mod alias_tests;
#[cfg(test)]
mod copy_samples;
#[cfg(test)]
mod copy_tests;
#[cfg(test)]
mod error_text_tests;
#[cfg(test)]
mod log_calls;
#[cfg(test)]
mod printing_tests;
#[cfg(test)]
mod recent_tests;
#[cfg(test)]
mod settings_samples;
#[cfg(test)]
mod settings_tests;
#[cfg(test)]
mod stream_tests;
