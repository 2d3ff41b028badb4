//! Transcripts: what a run asked and was told, and what it replied.

use dns_core::{Items, Log};
use recursor_types::Reply;

/// The log of a run and the reply to each of its questions, in order.
#[derive(Debug, PartialEq, Eq)]
pub struct Transcript {
    pub log: Log,
    pub replies: Items<Reply>,
}

impl Drop for Transcript {
    fn drop(self) {
        let Transcript { log: _, replies: _ } = self;
    }
}
