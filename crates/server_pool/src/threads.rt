//! Which types of this crate may go to another thread, and be shared among threads.

use crate::interest::PoolLookup;
use crate::pool::NameServerPool;
use crate::pool_shared::{PoolShared, PoolStep};
use dns_core::CrossesThreads;

impl CrossesThreads for NameServerPool {}

impl CrossesThreads for PoolLookup {}

impl CrossesThreads for PoolShared {}

impl CrossesThreads for PoolStep {}
