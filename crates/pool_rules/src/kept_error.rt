//! Which of the errors of its sends a lookup keeps, for the case that none of them ends it.
ghost use Rattle.std.specs.Prelude.{◌≡◌, if◌then◌else◌};
ghost use Rattle.resolution.specs.KeptError.{most_specific, is_negative_error, is_io_error, is_timeout_error};

use dns_core::NetError;

fn is_negative(error: &NetError) -> bool
    ensures { result ≡ is_negative_error error.now }
{
    error.is_no_records_found()
}

fn is_io(error: &NetError) -> bool
    ensures { result ≡ is_io_error error.now }
{
    matches!(error, NetError::Io(_))
}

fn is_timeout(error: &NetError) -> bool
    ensures { result ≡ is_timeout_error error.now }
{
    matches!(error, NetError::Timeout)
}

/// Whether the later of two errors is kept.
fn keeps_later(previous: &NetError, current: &NetError) -> bool
    ensures { most_specific previous.now current.now ≡ (if result then current.now else previous.now) }
{
    if is_negative(previous) || is_negative(current) {
        return !is_negative(previous);
    }
    if is_io(previous) != is_io(current) {
        return is_io(previous);
    }
    is_timeout(current) && !is_timeout(previous)
}

/// Which of two errors is kept: the first that tells that there are no such records; else the one
/// that is no fault of transport; else the one that is a timeout; else the earlier one.
pub fn most_specific(previous: NetError, current: NetError) -> NetError
    ensures { result ≡ most_specific previous current }
{
    if keeps_later(&previous, &current) {
        current
    } else {
        previous
    }
}
