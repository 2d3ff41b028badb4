//! Which types of this crate may go to another thread, and be shared among threads.

use crate::scenario::{Cause, Scenario, ScenarioError, Upstream};
use dns_core::CrossesThreads;

impl CrossesThreads for Scenario {}

impl CrossesThreads for Upstream {}

impl CrossesThreads for Cause {}

impl CrossesThreads for ScenarioError {}
