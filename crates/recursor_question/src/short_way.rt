//! The short way of a question for which the cache has an authoritative message: this is copied once,
//! into the reply.
ghost use Rattle.std.specs.Prelude.{ℕ, IfOk, IfSome};
ghost use Rattle.walk_lookup.specs.LogView.{LogView};
ghost use Rattle.recursor_walk.specs.Replies.{CameTo, IsReplyKept};
ghost use Rattle.recursor_walk.specs.SourcedVerdict.{ReadsAt};

use dns_core::{NoMemory, Question, in_box};
use recursor_types::Reply;
use resolver_cache::{ResponseCache, read_message, seconds_between};
use std::alloc::Global;
use walk_response::just;

/// The reply to a question with the authoritative message that the cache has for it, where there is
/// one that is current at the moment.
pub(crate) fn cached_answer(
    alloc: Global,
    cache: &ResponseCache,
    question: &Question,
    now: u64,
) -> Result<Option<Box<Reply>>, NoMemory>
    ensures kept { IfOk result (λ reply. IfSome reply (λ given. IsReplyKept cache.now question.now now given.value)) }
    ensures holds { (view : LogView) (asked_at : ℕ) → ReadsAt view asked_at now cache.now
        → IfOk result (λ reply. IfSome reply (λ given. CameTo view asked_at question.now given.value)) }
{
    let Some(entry) = cache.current(&question.query, now) else {
        return Ok(None);
    };
    let Some(message) = entry.message() else {
        return Ok(None);
    };
    if !message.authoritative {
        return Ok(None);
    }
    let seconds = seconds_between(entry.written(), now);
    let answer = read_message(alloc, message, seconds, question.dnssec_ok)?;
    let grounds = just(alloc, entry.source())?;
    let reply = in_box(
        alloc,
        Reply {
            outcome: Ok(answer),
            grounds,
        },
    )?;
    Ok(Some(reply))
}
