//! What a lookup comes to by what it was answered.
ghost use Rattle.std.specs.Prelude.{◌≡◌};
ghost use Rattle.walk_lookup.specs.LookupResult.{last_of, class_of_failure, classified, ComesTo};

use crate::lookup_result::LookupResult;
use dns_core::{DnsError, Message, Name, NetError, Query};
use walk_response::verdict_of_class;

/// The last of these numbers, 0 where there is none.
pub fn last_of(numbers: &[u64]) -> u64
    ensures { result ≡ last_of numbers.now }
{
    match numbers.last() {
        Some(number) => *number,
        None => 0,
    }
}

/// Of which class an error is that a lookup was answered with: a denial was told, else it failed.
fn class_of_failure(error: NetError) -> Result<Result<Message, DnsError>, NetError>
    ensures { result ≡ class_of_failure error }
{
    match error {
        NetError::Dns(DnsError::NoRecordsFound(found)) => {
            Ok(Err(DnsError::NoRecordsFound(found)))
        }
        error => Err(error),
    }
}

/// Of which class an answer is.
fn classified(told: Result<Message, NetError>) -> Result<Result<Message, DnsError>, NetError>
    ensures { result ≡ classified told }
{
    match told {
        Ok(message) => Ok(Ok(message)),
        Err(error) => class_of_failure(error),
    }
}

/// What a lookup for a question at servers of a zone comes to that was answered so, by the entry.
pub fn found_by(
    entry: u64,
    told: Result<Message, NetError>,
    query: &Query,
    zone: &Name,
) -> LookupResult
    ensures { ComesTo zone.now query.now entry (classified told) result }
{
    match classified(told) {
        Ok(class) => LookupResult::Told {
            entry,
            verdict: verdict_of_class(class, query, zone),
        },
        Err(error) => LookupResult::Error(error),
    }
}
