//! Which types of this crate may go to another thread, and be shared among threads.

use crate::zone_query::asking::ZoneQuery;
use crate::zone_query::sourced_verdict::SourcedVerdict;
use dns_core::CrossesThreads;

impl CrossesThreads for ZoneQuery {}

impl CrossesThreads for SourcedVerdict {}
