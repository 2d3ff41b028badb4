//! Which types of this crate may go to another thread, and be shared among threads.

use crate::open_lookups::open_lookup::OpenLookup;
use dns_core::CrossesThreads;

impl CrossesThreads for OpenLookup {}
