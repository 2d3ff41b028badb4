//! Which types of this crate may go to another thread, and be shared among threads.

use crate::entry::{CachedResponse, Entry};
use crate::kept_entry::KeptEntry;
use dns_core::CrossesThreads;

impl CrossesThreads for Entry {}

impl CrossesThreads for KeptEntry {}

impl CrossesThreads for CachedResponse {}
