//! The answer to a question.

use crate::error::RecursorError;
use dns_core::{Message, Numbers};

/// A reply, with the numbers of the log entries that it rests on.
#[derive(Drop, Debug, PartialEq, Eq)]
pub struct Reply {
    pub outcome: Result<Message, RecursorError>,
    pub grounds: Numbers,
}
