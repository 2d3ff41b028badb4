//! What a response that was told comes to: what it counts for, or an error.
ghost use Rattle.std.specs.Prelude.{◌≡◌, IfOk, IfErr, Some};
ghost use Rattle.resolution.specs.Verdict.{allows_all};
ghost use Rattle.resolution.specs.Class.{class_of_classified};
ghost use Rattle.resolution.specs.Verdict.{verdict_of_told};
ghost use Rattle.walk_response.specs.Response.{error_of};

use crate::class::class_of;
use crate::verdict::{scrub_answer, scrub_negative};
use dns_core::{DnsError, Message, Name, NetError, Query, Record};
use resolution::{Class, Verdict};

/// The error of a response with a record of another class than the question's.
fn foreign_class(r: Record) -> NetError
    ensures { result ≡ NetError.ForeignClassRecord r.name r.dns_class r.record_type }
{
    NetError::ForeignClassRecord {
        record_class: r.dns_class,
        record_type: r.record_type,
        record_name: r.into_name(),
    }
}

/// What a response, classified, counts for, as told for the question by a server of the zone; or the
/// error that it is where it is neither an answer nor a negative.
pub fn verdict_of_class(
    class: Result<Message, DnsError>,
    query: &Query,
    zone: &Name,
) -> Result<Verdict, NetError>
    ensures counts { IfOk result (λ verdict. verdict_of_told allows_all (Some (class_of_classified query.now class)) zone.now ≡ Some verdict) }
    ensures error { IfErr result (λ e. error_of (class_of_classified query.now class) ≡ Some e) }
{
    match class_of(class, query) {
        Class::Positive(answer) => Ok(scrub_answer(answer, zone)),
        Class::Negative(found) => Ok(Verdict::Neg(scrub_negative(found, zone))),
        Class::Code(code) => Err(NetError::Dns(DnsError::ResponseCode(code))),
        Class::Truncated => Err(NetError::Truncated),
        Class::Foreign(r) => Err(foreign_class(r)),
        Class::Error(error) => Err(error),
    }
}
