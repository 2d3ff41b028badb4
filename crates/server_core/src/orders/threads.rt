//! Which types of this crate may go to another thread, and be shared among threads.

use crate::orders::order::{After, Order, Outcome, SentBy, Tick};
use dns_core::CrossesThreads;

impl CrossesThreads for Tick {}

impl CrossesThreads for Order {}

impl CrossesThreads for SentBy {}

impl CrossesThreads for Outcome {}

impl CrossesThreads for After {}
