//! Which types of this crate may go to another thread, and be shared among threads.

use crate::provider::{WorldExchange, WorldOpening};
use crate::upstream::WorldUpstream;
use dns_core::CrossesThreads;

impl CrossesThreads for WorldOpening {}

impl CrossesThreads for WorldExchange {}

impl CrossesThreads for WorldUpstream {}
