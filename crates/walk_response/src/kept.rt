//! What is read of a verdict as a cache keeps it.
ghost use Rattle.std.specs.Prelude.{◌≡◌};
ghost use Rattle.walk_response.specs.Kept.{verdict_kept};

use dns_core::{DnsError, Message, NetError};
use resolution::Verdict;

/// The verdict that is kept so.
pub fn verdict_kept(response: Result<Message, NetError>) -> Option<Verdict>
    ensures { result ≡ verdict_kept response }
{
    match response {
        Ok(kept) => Some(Verdict::Pos(kept)),
        Err(NetError::Dns(DnsError::NoRecordsFound(found))) => Some(Verdict::Neg(found)),
        Err(_) => None,
    }
}
