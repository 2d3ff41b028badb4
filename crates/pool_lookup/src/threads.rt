//! Which types of this crate may go to another thread, and be shared among threads.

use crate::attempt::Attempt;
use crate::giving::{LookupStep, Want};
use crate::lookup::{Lookup, State};
use dns_core::CrossesThreads;

impl CrossesThreads for Attempt {}

impl CrossesThreads for State {}

impl CrossesThreads for Lookup {}

impl CrossesThreads for LookupStep {}

impl CrossesThreads for Want {}
