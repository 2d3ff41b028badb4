//! Which types of this crate may go to another thread, and be shared among threads.

use crate::message::WireMessage;
use crate::writing::WriteError;
use dns_core::CrossesThreads;

impl CrossesThreads for WireMessage {}

impl CrossesThreads for WriteError {}
