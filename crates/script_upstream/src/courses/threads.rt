//! Which types of this crate may go to another thread, and be shared among threads.

use crate::courses::course::{ScriptedReply, Stage};
use crate::courses::index::{Asking, Endpoint, Index, Route, Turns};
use dns_core::CrossesThreads;

impl CrossesThreads for Asking {}

impl CrossesThreads for ScriptedReply {}

impl CrossesThreads for Endpoint {}

impl CrossesThreads for Index {}

impl CrossesThreads for Route {}

impl CrossesThreads for Stage {}

impl CrossesThreads for Turns {}
