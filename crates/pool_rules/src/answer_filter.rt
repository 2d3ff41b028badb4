//! What is left of an answer: it is refused for a record of another class than the question's, and
//! loses the records with an address that the filter of answers denies.
ghost use Rattle.std.specs.Prelude.{◌≡◌, ◌&&◌, ◌||◌, not, None, Some, Ok, Err, IfOk, IfErr, find, filter, IsTrue, if◌then◌else◌};
ghost use Rattle.std.specs.List.{position};
ghost use Rattle.std.specs.Option.{option_copied};
ghost use Rattle.dns_core.specs.declared.record.Record.{Record};
ghost use Rattle.resolver_settings.specs.Access.{denies};
ghost use Rattle.resolution.specs.Class.{is_foreign};
ghost use Rattle.resolution.specs.Records.{address, records};
ghost use Rattle.resolution.specs.Verdict.{holds_denied, is_all_denied, without_denied};
ghost use Rattle.pool_rules.specs.AnswerFilter.{denied_by, foreign_class, nothing_left, filtered};

use dns_core::{
    DnsError, Items, Message, NetError, NoRecords, Query, RData, Record, Records, ResponseCode,
};
use resolver_settings::AccessControlSet;
use std::alloc::Global;
use std::net::IpAddr;

fn is_foreign(query: &Query, r: &Record) -> bool
    ensures { result ≡ is_foreign query.now r.now }
{
    r.dns_class != query.query_class
}

/// The place of the first record of another class than the question's.
fn foreign_place(query: &Query, section: &[Record]) -> Option<usize>
    ensures { result ≡ position (is_foreign query.now) section.now }
{
    section.iter().position(|r| is_foreign(query, r))
}

/// Whether each record of a section is of the class of the question.
fn is_of_class(query: &Query, section: &[Record]) -> bool
    ensures { IsTrue result → find (is_foreign query.now) section.now ≡ None }
{
    match foreign_place(query, section) {
        Some(_) => false,
        None => true,
    }
}

/// Whether each record of a message is.
fn are_of_class(query: &Query, message: &Message) -> bool
    ensures { IsTrue result → find (is_foreign query.now) (records message.now) ≡ None }
{
    if !is_of_class(query, message.answers.items()) {
        return false;
    }
    if !is_of_class(query, message.authorities.items()) {
        return false;
    }
    is_of_class(query, message.additionals.items())
}

/// A section without records of another class than the question's, or the first of them.
fn one_class(query: &Query, section: Records) -> Result<Records, Record>
    ensures ok { IfOk result (λ kept. (kept ≡ section) × (find (is_foreign query.now) section ≡ None)) }
    ensures err { IfErr result (λ r. find (is_foreign query.now) section ≡ Some r) }
{
    let mut items = section.into_vec();
    match foreign_place(query, &items) {
        Some(place) => Err(items.swap_remove(place)),
        None => Ok(Items::new(items)),
    }
}

/// A message without records of another class than the question's, or the first of them, section by
/// section.
pub(crate) fn of_one_class(query: &Query, message: Message) -> Result<Message, Record>
    ensures ok { IfOk result (λ kept. (kept ≡ message) × (find (is_foreign query.now) (records message) ≡ None)) }
    ensures err { IfErr result (λ r. find (is_foreign query.now) (records message) ≡ Some r) }
{
    if are_of_class(query, &message) {
        return Ok(message);
    }
    let answers = one_class(query, message.answers)?;
    let authorities = one_class(query, message.authorities)?;
    let additionals = one_class(query, message.additionals)?;
    Ok(Message {
        query: message.query,
        response_code: message.response_code,
        authoritative: message.authoritative,
        truncation: message.truncation,
        answers,
        authorities,
        additionals,
    })
}

fn address(r: &Record) -> Option<IpAddr>
    ensures { result ≡ address r.now }
{
    match &r.rdata {
        RData::A(ip) => Some(IpAddr::V4(*ip)),
        RData::AAAA(ip) => Some(IpAddr::V6(*ip)),
        _ => None,
    }
}

fn holds_denied(set: &AccessControlSet, r: &Record) -> bool
    ensures { result ≡ holds_denied (denies set.now) r.now }
{
    match address(r) {
        Some(ip) => set.denied(ip),
        None => false,
    }
}

fn keep_allowed(items: &mut Vec<Record>, set: &AccessControlSet)
    ensures { items.new.items ≡ filter (λ r. not (holds_denied (denies set.now) r)) items.old.items }
{
    items.retain(|r| !holds_denied(set, r));
}

fn allowed_section(section: Records, set: &AccessControlSet) -> Records
    ensures { result ≡ filter (λ r. not (holds_denied (denies set.now) r)) section }
{
    let mut items = section.into_vec();
    keep_allowed(&mut items, set);
    Items::new(items)
}

/// A message without the records that hold a denied address.
fn without_denied(message: Message, set: &AccessControlSet) -> Message
    ensures { result ≡ without_denied (denies set.now) message }
{
    Message {
        query: message.query,
        response_code: message.response_code,
        authoritative: message.authoritative,
        truncation: message.truncation,
        answers: allowed_section(message.answers, set),
        authorities: allowed_section(message.authorities, set),
        additionals: allowed_section(message.additionals, set),
    }
}

/// Whether what was left out emptied the answers, or the authorities beside no answers.
fn is_emptied(answered: bool, no_answers: bool, delegated: bool, no_authorities: bool) -> bool
    ensures { result ≡ ((answered && no_answers) || (no_answers && delegated && no_authorities)) }
{
    (answered && no_answers) || (no_answers && delegated && no_authorities)
}

fn nothing_left(alloc: Global, query: Query) -> NetError
    ensures { result ≡ nothing_left query }
{
    NetError::Dns(DnsError::NoRecordsFound(NoRecords {
        query,
        soa: None,
        ns: None,
        response_code: ResponseCode::NXDomain,
        authorities: Records::empty(alloc),
    }))
}

pub(crate) fn foreign_class(r: Record) -> NetError
    ensures { result ≡ foreign_class r }
{
    NetError::ForeignClassRecord {
        record_class: r.dns_class,
        record_type: r.record_type,
        record_name: r.into_name(),
    }
}

/// A message without the records that hold a denied address, or a denial where that empties it.
fn allowed(
    alloc: Global,
    message: Message,
    query: Query,
    set: &AccessControlSet,
) -> Result<Message, NetError>
    ensures { result ≡ (if is_all_denied (denies set.now) message then Err (nothing_left query) else Ok (without_denied (denies set.now) message)) }
{
    let answered = !message.answers.is_empty();
    let delegated = !message.authorities.is_empty();
    let kept = without_denied(message, set);
    let no_answers = kept.answers.is_empty();
    let no_authorities = kept.authorities.is_empty();
    if is_emptied(answered, no_answers, delegated, no_authorities) {
        Err(nothing_left(alloc, query))
    } else {
        Ok(kept)
    }
}

/// What an answer to a question comes to. A record of another class than the question's refuses it,
/// in whatever section it stands. Then the records with an address that the set denies leave all
/// sections; where that empties the answers, or the authorities beside no answers, the answer is that
/// there is no such name, with no SOA.
pub fn filtered(
    alloc: Global,
    message: Message,
    query: Query,
    filter: Option<&AccessControlSet>,
) -> Result<Message, NetError>
    ensures { result ≡ filtered query (denied_by (option_copied filter.entry)) message }
{
    match of_one_class(&query, message) {
        Ok(message) => match filter {
            Some(set) => allowed(alloc, message, query, set),
            None => Ok(message),
        },
        Err(r) => Err(foreign_class(r)),
    }
}
