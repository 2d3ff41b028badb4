//! Which types of this crate may go to another thread, and be shared among threads.

use crate::kept::entries::Answered;
use crate::kept::kept::Kept;
use dns_core::CrossesThreads;

impl CrossesThreads for Answered<'_> {}

impl CrossesThreads for Kept<'_, '_, '_> {}
