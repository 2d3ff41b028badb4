//! What a response counts for, as told by a server of a zone: only records at or below the apex of
//! its zone are believed (RFC 2181 section 5.4.1, RFC 5452 section 6).
ghost use Rattle.std.specs.Prelude.{◌≡◌, ◌&&◌, ◌||◌, filter};
ghost use Rattle.resolution.specs.Verdict.{allows_all};
ghost use Rattle.resolution.specs.Verdict.{is_in_bailiwick, in_bailiwick, scrub_negative, verdict_of_message, if_in_bailiwick};

use dns_core::{Boxed, Items, Message, Name, NoRecords, Record, Records, is_subzone};
use resolution::{Cause, Verdict};

fn is_in_zone(zone: &Name, r: &Record) -> bool
    ensures { result ≡ is_in_bailiwick zone.now r.now }
{
    zone.is_fqdn() && is_subzone(zone, &r.name)
}

fn keep(records: &mut Vec<Record>, zone: &Name)
    ensures { records.new.items ≡ filter (is_in_bailiwick zone.now) records.old.items }
{
    records.retain(|r| is_in_zone(zone, r));
}

fn kept_section(records: Records, zone: &Name) -> Records
    ensures { result ≡ filter (is_in_bailiwick zone.now) records }
{
    let mut items = records.into_vec();
    keep(&mut items, zone);
    Items::new(items)
}

/// The records of a message that are inside the zone.
fn in_bailiwick(message: Message, zone: &Name) -> Message
    ensures { result ≡ in_bailiwick zone.now message }
{
    Message {
        query: message.query,
        response_code: message.response_code,
        authoritative: message.authoritative,
        truncation: message.truncation,
        answers: kept_section(message.answers, zone),
        authorities: kept_section(message.authorities, zone),
        additionals: kept_section(message.additionals, zone),
    }
}

fn soa_within(soa: Option<Boxed<Record>>, zone: &Name) -> Option<Boxed<Record>>
    ensures { result ≡ if_in_bailiwick zone.now soa }
{
    match soa {
        Some(r) => {
            if is_in_zone(zone, r.get()) {
                Some(r)
            } else {
                None
            }
        }
        None => None,
    }
}

/// A negative response without an SOA and authorities outside the zone.
pub fn scrub_negative(found: NoRecords, zone: &Name) -> NoRecords
    ensures { result ≡ scrub_negative zone.now found }
{
    let NoRecords {
        query,
        soa,
        ns,
        response_code,
        authorities,
    } = found;
    NoRecords {
        query,
        soa: soa_within(soa, zone),
        ns,
        response_code,
        authorities: kept_section(authorities, zone),
    }
}

/// Whether what was left out emptied the answers, or the authorities beside no answers.
fn is_emptied(answered: bool, no_answers: bool, delegated: bool, no_authorities: bool) -> bool
    ensures { result ≡ ((answered && no_answers) || (no_answers && delegated && no_authorities)) }
{
    (answered && no_answers) || (no_answers && delegated && no_authorities)
}

/// What an answer counts for, as told by a server of the zone: the records inside the zone, or a
/// denial where the zone leaves no answer, or no authority beside no answer.
pub fn scrub_answer(message: Message, zone: &Name) -> Verdict
    ensures { result ≡ verdict_of_message allows_all message zone.now }
{
    let answered = !message.answers.is_empty();
    let delegated = !message.authorities.is_empty();
    let kept = in_bailiwick(message, zone);
    let no_answers = kept.answers.is_empty();
    let no_authorities = kept.authorities.is_empty();
    if is_emptied(answered, no_answers, delegated, no_authorities) {
        Verdict::Made(Cause::Zone)
    } else {
        Verdict::Pos(kept)
    }
}
