//! Which types of this crate may go to another thread, and be shared among threads.

use crate::class::Class;
use crate::following::Follow;
use crate::verdict::{Cause, Verdict};
use dns_core::CrossesThreads;

impl CrossesThreads for Cause {}

impl CrossesThreads for Class {}

impl CrossesThreads for Follow {}

impl CrossesThreads for Verdict {}
