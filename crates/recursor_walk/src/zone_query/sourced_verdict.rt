//! What counts for a question, whether it was told just now or is read from the cache.
ghost use Rattle.std.specs.Prelude.{◌≡◌, IfOk};
ghost use Rattle.recursor_walk.specs.SourcedVerdict.{from_cache, may_answer, answerable};

use dns_core::{NoMemory, Query};
use resolution::Verdict;
use resolver_cache::{CachedResponse, ResponseCache};
use std::alloc::Global;
use walk_response::verdict_kept;

/// What counts, and the number of the log entry that told it.
#[derive(Drop)]
pub struct SourcedVerdict {
    pub entry: u64,
    pub verdict: Verdict,
}

impl SourcedVerdict {
    /// Whether it answers a question where it is read later: a negative, or an authoritative answer.
    fn may_answer(&self) -> bool
        ensures { result ≡ may_answer self.now.verdict }
    {
        match &self.verdict {
            Verdict::Pos(kept) => kept.authoritative,
            Verdict::Neg(_) => true,
            Verdict::Made(_) => true,
        }
    }
}

/// What counts, where it may be answered.
pub fn answerable(counted: Option<SourcedVerdict>) -> Option<SourcedVerdict>
    ensures { result ≡ answerable counted }
{
    match counted {
        Some(counted) => {
            if counted.may_answer() {
                Some(counted)
            } else {
                None
            }
        }
        None => None,
    }
}

/// What the cache has for a question that is current at the moment.
pub fn from_cache(
    alloc: Global,
    cache: &ResponseCache,
    query: &Query,
    now: u64,
) -> Result<Option<SourcedVerdict>, NoMemory>
    ensures { IfOk result (λ counted. counted ≡ from_cache cache.now query.now now) }
{
    if cache.current(query, now).is_none() {
        return Ok(None);
    }
    match cache.find(alloc, query, now)? {
        Some(CachedResponse { response, source }) => {
            let counted = verdict_kept(response).map(|verdict| SourcedVerdict {
                entry: source,
                verdict,
            });
            Ok(counted)
        }
        None => Ok(None),
    }
}
