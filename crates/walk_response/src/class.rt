//! What a response is for its question.
ghost use Rattle.std.specs.Prelude.{◌≡◌, find, Ok};
ghost use Rattle.std.specs.Option.{option_copied};
ghost use Rattle.resolution.specs.Class.{class_of_classified, is_foreign};
ghost use Rattle.resolution.specs.Records.{records};

use dns_core::{DnsError, Message, Query, Record, Records};
use resolution::Class;

fn is_foreign(query: &Query, r: &Record) -> bool
    ensures { result ≡ is_foreign query.now r.now }
{
    r.dns_class != query.query_class
}

/// The first record of a section of another class than the question's.
fn foreign_in<'a>(query: &Query, records: &'a [Record]) -> Option<&'a Record>
    ensures { option_copied result ≡ find (is_foreign query.now) records.now }
{
    records.iter().find(|r| is_foreign(query, r))
}

/// The first record of another class than the question's, section by section.
fn first_foreign<'a>(query: &Query, message: &'a Message) -> Option<&'a Record>
    ensures { option_copied result ≡ find (is_foreign query.now) (records message.now) }
{
    foreign_in(query, message.answers.items())
        .or(foreign_in(query, message.authorities.items()))
        .or(foreign_in(query, message.additionals.items()))
}

/// That record of a section, taken out of it.
fn take_foreign_in(query: &Query, section: Records) -> Option<Record>
    ensures { result ≡ find (is_foreign query.now) section }
{
    section
        .into_vec()
        .into_iter()
        .find(|r| is_foreign(query, r))
}

/// That record of a message, taken out of it.
fn take_foreign(query: &Query, message: Message) -> Option<Record>
    ensures { result ≡ find (is_foreign query.now) (records message) }
{
    take_foreign_in(query, message.answers)
        .or(take_foreign_in(query, message.authorities))
        .or(take_foreign_in(query, message.additionals))
}

/// What a response with data is. Without records of another class it is an answer.
fn answer_of(query: &Query, message: Message) -> Class
    ensures { result ≡ class_of_classified query.now (Ok message) }
{
    if message.truncation {
        return Class::Truncated;
    }
    if first_foreign(query, &message).is_none() {
        return Class::Positive(message);
    }
    match take_foreign(query, message) {
        Some(r) => Class::Foreign(r),
        None => unreachable!(),
    }
}

/// What a response, classified, is for the question that it was told for (RFC 2308 section 2).
pub fn class_of(class: Result<Message, DnsError>, query: &Query) -> Class
    ensures { result ≡ class_of_classified query.now class }
{
    match class {
        Err(DnsError::ResponseCode(code)) => Class::Code(code),
        Err(DnsError::NoRecordsFound(found)) => Class::Negative(found),
        Ok(message) => answer_of(query, message),
    }
}
