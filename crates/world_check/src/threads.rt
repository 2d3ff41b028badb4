//! Which types of this crate may go to another thread, and be shared among threads.

use crate::filters::WorldFilters;
use crate::verdict::Verdict;
use dns_core::CrossesThreads;

impl CrossesThreads for Verdict {}

impl CrossesThreads for WorldFilters {}
