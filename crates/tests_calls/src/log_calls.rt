//! Tests of what only calls beside the pools show: the cache with the log entries that told its responses,
//! logs told to the plain programs of the definitions, and a world that is asked by a scan. Each call that
//! may want memory, and that no command makes, is called once here, where there is memory.
//!
//! They stand here and not in the layers, since a crate with tests is proved once more with them.

pub mod cache_tests;
pub mod serving_tests;
pub mod world_tests;
