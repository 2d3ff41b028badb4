//! Which types of this crate may go to another thread, and be shared among threads.

use crate::errors::WireError;
use crate::kept::{KeptName, KeptNames};
use dns_core::CrossesThreads;

impl CrossesThreads for WireError {}

impl CrossesThreads for KeptName {}

impl CrossesThreads for KeptNames {}
