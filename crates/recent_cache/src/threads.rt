//! Which types of this crate may go to another thread, and be shared among threads.

use crate::cache::RecentCache;
use crate::hash_keys::HashKeys;
use dns_core::CrossesThreads;
use std::hash::Hash;

impl CrossesThreads for HashKeys {}

impl<K: Eq + Hash + Send + Sync, V: Send + Sync> CrossesThreads for RecentCache<K, V> {}
