//! Which types of this crate may go to another thread, and be shared among threads.

use crate::bounds::ReversedTtl;
use crate::cache::ResponseCache;
use dns_core::CrossesThreads;

impl CrossesThreads for ResponseCache {}

impl CrossesThreads for ReversedTtl {}
