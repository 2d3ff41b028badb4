//! What an outcome says of how fast a server answers.
ghost use Rattle.std.specs.Prelude.{◌≡◌, ◌≤◌};
ghost use Rattle.server_core.specs.Hearing.{heard_dns, heard_of, heard_error, counted};

use crate::delays::DecayingSrtt;
use dns_core::{DnsError, Message, NetError};

/// An answer after so many microseconds, a failure, or nothing that counts.
#[derive(Clone, Copy, Debug, PartialEq, Eq)]
pub enum Heard {
    Answer { took: u64 },
    Failure,
    Nothing,
}

/// What counts of a response without an answer: a denial as a failure, and each other code not at all.
fn heard_dns(error: &DnsError) -> Heard
    ensures { result ≡ heard_dns error.now }
{
    match error {
        DnsError::NoRecordsFound(_) => Heard::Failure,
        DnsError::ResponseCode(_) => Heard::Nothing,
    }
}

/// What counts of a response.
pub fn heard_of(took: u64, class: &Result<Message, DnsError>) -> Heard
    ensures { result ≡ heard_of took class.now }
{
    match class {
        Ok(_) => Heard::Answer { took },
        Err(error) => heard_dns(error),
    }
}

/// What counts of an error. A response that is told as an error counts as in a message.
pub fn heard_error(error: &NetError) -> Heard
    ensures { result ≡ heard_error error.now }
{
    match error {
        NetError::Busy | NetError::Io(_) | NetError::Timeout => Heard::Failure,
        NetError::Dns(error) => heard_dns(error),
        NetError::NoConnections
        | NetError::Truncated
        | NetError::QueryCaseMismatch
        | NetError::ForeignClassRecord { .. }
        | NetError::Msg(_)
        | NetError::NoMemory => Heard::Nothing,
    }
}

/// Counts what was heard.
pub(crate) fn count(delay: &mut DecayingSrtt, heard: Heard, now: u64)
    ensures { delay.new ≡ counted heard now delay.old }
{
    match heard {
        Heard::Answer { took } => delay.record(took, now),
        Heard::Failure => delay.record_failure(now),
        Heard::Nothing => {}
    }
}
