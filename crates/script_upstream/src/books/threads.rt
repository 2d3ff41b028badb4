//! Which types of this crate may go to another thread, and be shared among threads.

use crate::books::book::ScriptLog;
use dns_core::CrossesThreads;

impl CrossesThreads for ScriptLog {}
