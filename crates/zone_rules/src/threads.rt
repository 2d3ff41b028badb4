//! Which types of this crate may go to another thread, and be shared among threads.

use crate::choosing::Alias;
use crate::world::{Host, World, WorldAnswer, Zone};
use dns_core::CrossesThreads;

impl CrossesThreads for Alias<'_> {}

impl CrossesThreads for Host {}

impl CrossesThreads for World {}

impl CrossesThreads for WorldAnswer {}

impl CrossesThreads for Zone {}
