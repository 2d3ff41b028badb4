//! Which types of this crate may go to another thread, and be shared among threads.

use crate::provider::{ScriptExchange, ScriptOpening};
use crate::upstream::ScriptUpstream;
use dns_core::CrossesThreads;

impl CrossesThreads for ScriptOpening {}

impl CrossesThreads for ScriptExchange {}

impl CrossesThreads for ScriptUpstream {}
