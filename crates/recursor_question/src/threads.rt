//! Which types of this crate may go to another thread, and be shared among threads.

use crate::resolving::{NextStep, Resolution, State};
use crate::steps::Step;
use dns_core::CrossesThreads;

impl CrossesThreads for NextStep {}

impl CrossesThreads for Resolution {}

impl CrossesThreads for State {}

impl CrossesThreads for Step {}
