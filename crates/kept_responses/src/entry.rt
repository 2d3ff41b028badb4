//! What is kept under a question.
ghost use Rattle.std.specs.Prelude.{◌≡◌, IfOk};
ghost use Rattle.dns_core.specs.Name.{same_names};
ghost use Rattle.kept_responses.specs.Entry.{is_for, is_current};

use dns_core::{Message, Name, NetError, NoMemory, Query, TryClone};
use std::alloc::Global;

/// A response under its question, when it was written, the last moment at which it is current, and
/// the number of the log entry that told it, 0 where none is known. Moments are in microseconds.
#[derive(Drop, Debug)]
pub struct Entry {
    pub query: Query,
    pub response: Result<Message, NetError>,
    pub written: u64,
    pub expiry: u64,
    pub source: u64,
}

/// A response as it reads at a moment, and the number of the log entry that told it, 0 where none
/// is known.
#[derive(Drop, Debug)]
pub struct CachedResponse {
    pub response: Result<Message, NetError>,
    pub source: u64,
}

/// Whether two names are equal without case. Most that are so are equal with case too, which takes
/// less time to see.
fn is_same_name(left: &Name, right: &Name) -> bool
    ensures { result ≡ same_names left.now right.now }
{
    left.eq_case(right) || left == right
}

impl Entry {
    /// Whether it is kept for this question: of the same type, class and name, without regard to case.
    pub fn is_for(&self, query: &Query) -> bool
        ensures { result ≡ is_for query.now self.now }
    {
        self.query.query_type == query.query_type
            && self.query.query_class == query.query_class
            && is_same_name(&self.query.name, &query.name)
    }

    /// Whether it may still be read at this moment, in microseconds: up to its expiry, and at it.
    pub fn is_current(&self, now: u64) -> bool
        ensures { result ≡ is_current now self.now }
    {
        now <= self.expiry
    }
}

/// A copy of a response.
fn same_response(
    alloc: Global,
    response: &Result<Message, NetError>,
) -> Result<Result<Message, NetError>, NoMemory>
    ensures { IfOk result (λ copy. copy ≡ response.now) }
{
    match response {
        Ok(message) => Ok(Ok(message.try_clone(alloc)?)),
        Err(error) => Ok(Err(error.try_clone(alloc)?)),
    }
}

impl TryClone for Entry {
    fn try_clone(&self, alloc: Global) -> Result<Self, NoMemory> {
        let query = self.query.try_clone(alloc)?;
        let response = same_response(alloc, &self.response)?;
        Ok(Entry {
            query,
            response,
            written: self.written,
            expiry: self.expiry,
            source: self.source,
        })
    }
}

impl TryClone for CachedResponse {
    fn try_clone(&self, alloc: Global) -> Result<Self, NoMemory> {
        let response = same_response(alloc, &self.response)?;
        Ok(CachedResponse {
            response,
            source: self.source,
        })
    }
}
