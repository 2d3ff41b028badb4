//! A small log with the policy beside it.

use dns_core::LogEntry;
use recursor_types::Policy;

/// A log whose entries are numbered from 1, and the policy by which it is read.
#[derive(Drop)]
pub struct Setting<'a> {
    pub policy: &'a Policy,
    pub log: &'a [LogEntry],
}
