//! What a finished lookup leaves in the cache of responses.
ghost use Rattle.std.specs.Prelude.{◌≡◌, OnOk, OnErr, IfOk};
ghost use Rattle.walk_response.specs.Kept.{kept_of};
ghost use Rattle.walk_lookup.specs.Remembered.{with_response};

use dns_core::{DnsError, Message, NetError, NoMemory, Query, RecordType, TryClone};
use resolution::Verdict;
use resolver_cache::ResponseCache;
use std::alloc::Global;

/// As what a verdict is kept, copied.
fn kept_copy(
    alloc: Global,
    verdict: &Verdict,
) -> Result<Option<Result<Message, NetError>>, NoMemory>
    ensures { IfOk result (λ kept. kept ≡ kept_of verdict.now) }
{
    match verdict {
        Verdict::Pos(kept) => Ok(Some(Ok(kept.try_clone(alloc)?))),
        Verdict::Neg(found) => {
            let found = found.try_clone(alloc)?;
            Ok(Some(Err(NetError::Dns(DnsError::NoRecordsFound(found)))))
        }
        Verdict::Made(_) => Ok(None),
    }
}

/// Writes what was told for a question, by an entry, at a moment in microseconds, as its verdict is kept, if
/// it is. It fails only where memory runs out.
pub fn write_verdict(
    alloc: Global,
    cache: &mut ResponseCache,
    query: &Query,
    entry: u64,
    at: u64,
    verdict: &Verdict,
) -> Result<(), NoMemory>
    ensures ok { OnOk result (cache.new ≡ with_response cache.old query.now entry at (kept_of verdict.now)) }
    ensures err { OnErr result (cache.new ≡ cache.old) }
{
    if cache.keeps_nothing() {
        return Ok(());
    }
    let query = query.try_clone(alloc)?;
    let Some(response) = kept_copy(alloc, verdict)? else {
        return Ok(());
    };
    let clamp = query.query_type == RecordType::NS;
    cache.upsert_told(alloc, query, response, entry, at, clamp)
}
