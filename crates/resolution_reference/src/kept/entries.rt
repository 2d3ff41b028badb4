//! What the entries of a log tell and ask, one by one.
ghost use Rattle.std.specs.Prelude.{◌≡◌, true, ℕ, IfSome, IfNone, Some, None};
ghost use Rattle.std.specs.Option.{option_copied};
ghost use Rattle.std.specs.declared.net.IpAddr.{IpAddr};
ghost use Rattle.dns_core.specs.Log.{numbered, log_of};
ghost use Rattle.dns_core.specs.declared.connection.Protocol.{Protocol};
ghost use Rattle.dns_core.specs.declared.message.Query.{Query};
ghost use Rattle.dns_core.specs.declared.message.Message.{Message};
ghost use Rattle.dns_core.specs.declared.log.ToldOutcome.{ToldOutcome};
ghost use Rattle.dns_core.specs.declared.log.ToldOutcome.TheVariants as told;
ghost use Rattle.dns_core.specs.declared.log.LogEntry.TheVariants.{Asked, Told};
ghost use Rattle.resolution.specs.Names.{same_query};
ghost use Rattle.resolution.specs.Telling.{Tells};
ghost use Rattle.resolution_reference.specs.Plain.{asks, is_answer};

use crate::kept::kept::{is_answer, is_apex};
use dns_core::{Label, LogEntry, Message, Query, ToldOutcome};
use std::net::IpAddr;

/// What an entry tells of another.
#[derive(Drop)]
struct Reply<'a> {
    pub of: u64,
    pub moment: u64,
    pub outcome: &'a ToldOutcome,
}

/// A question that was asked of an address.
#[derive(Drop)]
struct Ask<'a> {
    pub teller: IpAddr,
    pub query: &'a Query,
}

/// An answer that was told, by whom, and the number of the entry that asked.
#[derive(Drop)]
pub struct Answered<'a> {
    pub ask: usize,
    pub teller: IpAddr,
    pub moment: u64,
    pub message: &'a Message,
}

fn as_reply(entry: &LogEntry) -> Option<Reply<'_>>
    ensures some { IfSome result (λ r. entry.now ≡ Told r.of r.moment r.outcome.now) }
    ensures none { IfNone result ((of moment : ℕ) (o : ToldOutcome) → entry.now ≡ Told of moment o → ⊥) }
{
    match entry {
        LogEntry::Told {
            of,
            moment,
            outcome,
        } => Some(Reply {
            of: *of,
            moment: *moment,
            outcome,
        }),
        _ => None,
    }
}

fn as_ask(entry: &LogEntry) -> Option<Ask<'_>>
    ensures some { IfSome result (λ a. (protocol : Protocol) × (moment : ℕ) × (entry.now ≡ Asked a.teller protocol a.query.now moment None)) }
    ensures none { IfNone result ((teller : IpAddr) (protocol : Protocol) (q : Query) (moment : ℕ) → entry.now ≡ Asked teller protocol q moment None → ⊥) }
{
    match entry {
        LogEntry::Asked {
            ip,
            query,
            refused: None,
            ..
        } => Some(Ask { teller: *ip, query }),
        _ => None,
    }
}

fn as_message(outcome: &ToldOutcome) -> Option<&Message>
    ensures some { IfSome result (λ m. outcome.now ≡ told.Message m.now) }
    ensures none { IfNone result ((m : Message) → outcome.now ≡ told.Message m → ⊥) }
{
    match outcome {
        ToldOutcome::Message(m) => Some(m),
        _ => None,
    }
}

fn is_query(query: &Query, labels: &[Label], record_type: u16, class: u16) -> bool
    ensures { result ≡ same_query query.now (asks labels.now record_type class) }
{
    is_apex(&query.name, labels)
        & (query.query_type.code == record_type)
        & (query.query_class.code == class)
}

fn entry(log: &[LogEntry], n: usize) -> Option<&LogEntry>
    ensures { option_copied result ≡ numbered log.now n }
{
    if n == 0 {
        return None;
    }
    log.get(n - 1)
}

fn reply_at(log: &[LogEntry], n: usize) -> Option<Reply<'_>>
    ensures some { IfSome result (λ r. numbered log.now n ≡ Some (Told r.of r.moment r.outcome.now)) }
    ensures none { IfNone result ((of moment : ℕ) (o : ToldOutcome) → numbered log.now n ≡ Some (Told of moment o) → ⊥) }
{
    match entry(log, n) {
        Some(entry) => as_reply(entry),
        None => None,
    }
}

fn ask_at(log: &[LogEntry], n: usize) -> Option<Ask<'_>>
    ensures some { IfSome result (λ a. (protocol : Protocol) × (moment : ℕ) × (numbered log.now n ≡ Some (Asked a.teller protocol a.query.now moment None))) }
    ensures none { IfNone result ((teller : IpAddr) (protocol : Protocol) (q : Query) (moment : ℕ) → numbered log.now n ≡ Some (Asked teller protocol q moment None) → ⊥) }
{
    match entry(log, n) {
        Some(entry) => as_ask(entry),
        None => None,
    }
}

/// The answer that an entry tells for a question of a fully qualified name.
pub fn told_answer<'l>(
    log: &'l [LogEntry],
    i: usize,
    labels: &[Label],
    record_type: u16,
    class: u16,
) -> Option<Answered<'l>>
    ensures tells { IfSome result (λ a. Tells (log_of log.now) i (asks labels.now record_type class) (told.Message a.message.now) a.ask a.teller a.moment) }
    ensures answers { IfSome result (λ a. is_answer (asks labels.now record_type class) a.message.now ≡ true) }
    ensures none { IfNone result ((ask moment : ℕ) (teller : IpAddr) (m : Message) → Tells (log_of log.now) i (asks labels.now record_type class) (told.Message m) ask teller moment → is_answer (asks labels.now record_type class) m ≡ true → ⊥) }
{
    let Some(reply) = reply_at(log, i) else {
        return None;
    };
    let Some(message) = as_message(reply.outcome) else {
        return None;
    };
    let ask = reply.of as usize;
    if ask >= i || !is_answer(message, labels, record_type, class) {
        return None;
    }
    let Some(asked) = ask_at(log, ask) else {
        return None;
    };
    if !is_query(asked.query, labels, record_type, class) {
        return None;
    }
    Some(Answered {
        ask,
        teller: asked.teller,
        moment: reply.moment,
        message,
    })
}
