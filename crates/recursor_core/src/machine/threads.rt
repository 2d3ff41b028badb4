//! Which types of this crate may go to another thread, and be shared among threads.

use crate::machine::plays::QuestionState;
use crate::machine::policy_with_context::PolicyWithContext;
use crate::machine::resolutions::RecursorCore;
use dns_core::CrossesThreads;

impl CrossesThreads for RecursorCore {}

impl CrossesThreads for QuestionState {}

impl CrossesThreads for PolicyWithContext {}
