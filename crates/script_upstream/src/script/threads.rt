//! Which types of this crate may go to another thread, and be shared among threads.

use crate::script::late::{Room, UnrecordedEntries};
use crate::script::script::{Script, ScriptLine};
use dns_core::CrossesThreads;

impl CrossesThreads for UnrecordedEntries {}

impl CrossesThreads for Room {}

impl CrossesThreads for Script {}

impl CrossesThreads for ScriptLine {}
