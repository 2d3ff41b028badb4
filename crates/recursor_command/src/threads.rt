//! Which types of this crate may go to another thread, and be shared among threads.

use crate::faults::Fault;
use crate::status::Status;
use dns_core::CrossesThreads;

impl CrossesThreads for Fault {}

impl CrossesThreads for Status {}
