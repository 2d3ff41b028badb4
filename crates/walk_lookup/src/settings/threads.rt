//! Which types of this crate may go to another thread, and be shared among threads.

use crate::settings::delays::FirstDelay;
use dns_core::CrossesThreads;

impl CrossesThreads for FirstDelay {}
