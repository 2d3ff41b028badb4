//! Which types of this crate may go to another thread, and be shared among threads.

use crate::edns::{Edns, Extra};
use dns_core::CrossesThreads;

impl CrossesThreads for Edns {}

impl CrossesThreads for Extra {}
