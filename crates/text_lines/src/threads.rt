//! Which types of this crate may go to another thread, and be shared among threads.

use crate::words::{LineError, Words};
use dns_core::CrossesThreads;

impl CrossesThreads for LineError {}

impl CrossesThreads for Words<'_> {}
