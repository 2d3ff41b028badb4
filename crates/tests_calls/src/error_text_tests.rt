//! What errors print where no contract says it: kinds of messages, causes, and errors that hold one of these.

use dns_core::{Name, NameError};
use recursor_types::{MessageKind, RecursorError, WalkCause};
use std::alloc::Global;
use std::fmt;
use std::test::Fail;
use tests_samples::is_wanted;

/// A value prints this text.
fn prints<T: fmt::Display>(alloc: Global, value: &T, text: &str) -> Result<(), Fail> {
    let printed = format!(in alloc; "{value}")?;
    is_wanted(printed.as_str(), text)
}

/// The same of a value that is not used again, as it was made or not made: a body that lets go of a large
/// one itself is dear to prove.
fn prints_once<T: fmt::Display + Drop>(
    alloc: Global,
    made: Result<T, NameError>,
    text: &str,
) -> Result<(), Fail> {
    let value = made?;
    prints(alloc, &value, text)
}

/// Kinds of messages, and their texts.
static KINDS: [(MessageKind, &str); 4] = [
    (
        MessageKind::NotQualified,
        "query's domain name must be fully qualified",
    ),
    (MessageKind::NoRoots, "roots must not be empty"),
    (MessageKind::ReversedTtl, "minimum TTL above maximum TTL"),
    (
        MessageKind::FirstDelays,
        "first delays must be from 1 to 31",
    ),
];

#[test]
fn kinds_of_messages_print_their_texts(rt: HostRuntime) -> Result<(), Fail> {
    let alloc = rt.alloc();
    for (value, text) in &KINDS {
        prints(alloc, value, *text)?;
    }
    let error = RecursorError::Message(MessageKind::NoRoots);
    prints_once(alloc, Ok(error), "roots must not be empty")
}

/// Causes, and their texts.
static CAUSES: [(WalkCause, &str); 6] = [
    (WalkCause::DepthLimit, "maximum recursion limit exceeded"),
    (WalkCause::Timeout, "net error: Timeout"),
    (
        WalkCause::NoAddress,
        "no glue found for any nameservers for zone",
    ),
    (WalkCause::Budget, "per-request query budget exceeded"),
    (WalkCause::ZoneEntries, "zone entry limit exceeded"),
    (
        WalkCause::Collision,
        "zone is already on the resolution stack",
    ),
];

#[test]
fn causes_print_their_texts(rt: HostRuntime) -> Result<(), Fail> {
    let alloc = rt.alloc();
    for (value, text) in &CAUSES {
        prints(alloc, value, *text)?;
    }
    Ok(())
}

/// That a zone has no server, by this cause.
pub fn unserved(alloc: Global, zone: &str, cause: WalkCause) -> Result<RecursorError, NameError> {
    let zone = Name::parse(alloc, zone)?;
    Ok(RecursorError::NoNameServer { zone, cause })
}

#[test]
fn a_zone_without_servers_is_named(rt: HostRuntime) -> Result<(), Fail> {
    prints_once(
        rt.alloc(),
        unserved(rt.alloc(), "example.com.", WalkCause::Timeout),
        "no nameserver found for example.com.: net error: Timeout",
    )
}
