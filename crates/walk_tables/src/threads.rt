//! Which types of this crate may go to another thread, and be shared among threads.

use crate::lookup::{Lookup, Phase, QueryStep};
use crate::pools::{Answer, Pools, PoolsStep};
use dns_core::CrossesThreads;

impl CrossesThreads for Answer {}

impl CrossesThreads for Phase {}

impl CrossesThreads for Lookup {}

impl CrossesThreads for Pools {}

impl CrossesThreads for PoolsStep {}

impl CrossesThreads for QueryStep {}
