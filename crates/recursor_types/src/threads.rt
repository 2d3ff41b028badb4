//! Which types of this crate may go to another thread, and be shared among threads.

use crate::error::{AuthorityData, MessageKind, RecursorError, WalkCause};
use crate::options::RecursorOptions;
use crate::policy::Policy;
use crate::reply::Reply;
use dns_core::CrossesThreads;

impl CrossesThreads for RecursorOptions {}

impl CrossesThreads for Policy {}

impl CrossesThreads for MessageKind {}

impl CrossesThreads for WalkCause {}

impl CrossesThreads for AuthorityData {}

impl CrossesThreads for RecursorError {}

impl CrossesThreads for Reply {}
