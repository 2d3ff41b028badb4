//! Which types of this crate may go to another thread, and be shared among threads.

use crate::pool_server::{Heard, OnError, PoolServer};
use crate::retry_queue::RetryQueue;
use dns_core::CrossesThreads;

impl CrossesThreads for PoolServer {}

impl CrossesThreads for OnError {}

impl CrossesThreads for Heard {}

impl CrossesThreads for RetryQueue {}
