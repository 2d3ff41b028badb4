//! Which types of this crate may go to another thread, and be shared among threads.

use crate::walk::{Walk, WalkOutcome};
use dns_core::CrossesThreads;

impl CrossesThreads for WalkOutcome {}

impl CrossesThreads for Walk {}
