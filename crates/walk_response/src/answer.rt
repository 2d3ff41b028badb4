//! What a question is answered with by what counts for it, and the entry that the reply rests on.
ghost use Rattle.std.specs.Prelude.{◌≡◌, ◌∷◌, [], IfOk};
ghost use Rattle.recursor_types.specs.declared.error.RecursorError.TheVariants.{Negative};
ghost use Rattle.resolution.specs.Negatives.{made_negative};
ghost use Rattle.walk_response.specs.Answer.{told_negative, ends_walk, outcome_of};

use dns_core::{
    Message, NoMemory, NoRecords, Numbers, Query, Question, Records, TryClone, in_box, strip,
};
use recursor_types::{AuthorityData, RecursorError, Reply};
use resolution::{Cause, Verdict};
use std::alloc::Global;

/// The numbers that hold one.
pub fn just(alloc: Global, entry: u64) -> Result<Numbers, NoMemory>
    ensures { IfOk result (λ numbers. numbers ≡ entry ∷ []) }
{
    let mut numbers = Numbers::empty(alloc);
    numbers.push(entry)?;
    Ok(numbers)
}

/// A negative response that the recursor makes where the filter or the zone leaves nothing of what
/// was told.
pub fn made_error(alloc: Global, query: &Query, cause: Cause) -> Result<RecursorError, NoMemory>
    ensures { IfOk result (λ error. error ≡ Negative (made_negative query.now cause)) }
{
    Ok(RecursorError::Negative(AuthorityData {
        query: query.try_clone(alloc)?,
        soa: None,
        no_records_found: matches!(cause, Cause::Filter),
        nx_domain: true,
        authorities: Records::empty(alloc),
    }))
}

/// A told negative response, which is a referral where it names servers.
pub fn told_negative(found: NoRecords) -> RecursorError
    ensures { result ≡ told_negative found }
{
    let NoRecords {
        query,
        soa,
        ns,
        response_code,
        authorities,
    } = found;
    match ns {
        Some(forward) => RecursorError::ForwardNS(forward),
        None => RecursorError::Negative(AuthorityData {
            query,
            soa,
            no_records_found: true,
            nx_domain: response_code.code == 3,
            authorities,
        }),
    }
}

/// Whether a negative response to a candidate says that nothing exists at or below it (RFC 8020).
pub fn ends_walk(found: &NoRecords) -> bool
    ensures { result ≡ ends_walk found.now }
{
    found.response_code.code == 3 && found.ns.is_none()
}

/// What a question is answered with by what counts for it: a message less the DNSSEC records that the
/// question does not want, or a denial.
pub fn outcome_of(
    alloc: Global,
    question: &Question,
    verdict: Verdict,
) -> Result<Result<Message, RecursorError>, NoMemory>
    ensures { IfOk result (λ outcome. outcome ≡ outcome_of question.now verdict) }
{
    match verdict {
        Verdict::Pos(kept) => Ok(Ok(strip(kept, question.dnssec_ok))),
        Verdict::Neg(found) => Ok(Err(told_negative(found))),
        Verdict::Made(cause) => {
            let denial = made_error(alloc, &question.query, cause)?;
            Ok(Err(denial))
        }
    }
}

/// The reply that an entry gives.
pub fn reply_by(
    alloc: Global,
    entry: u64,
    outcome: Result<Message, RecursorError>,
) -> Result<Box<Reply>, NoMemory>
    ensures { IfOk result (λ reply. reply.value ≡ record { outcome = outcome; grounds = entry ∷ [] }) }
{
    let Ok(grounds) = just(alloc, entry) else {
        drop(outcome);
        return Err(NoMemory);
    };
    in_box(alloc, Reply { outcome, grounds })
}
