//! Which types of this crate may go to another thread, and be shared among threads.

use crate::lookup_result::LookupResult;
use crate::pending_lookup::{OpenOrder, OrderTarget, PendingLookup};
use dns_core::CrossesThreads;

impl CrossesThreads for OrderTarget {}

impl CrossesThreads for LookupResult {}

impl CrossesThreads for OpenOrder {}

impl CrossesThreads for PendingLookup {}
