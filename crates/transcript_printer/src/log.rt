//! Logs.
ghost use Rattle.std.specs.Prelude.{◌≡◌, ◌+◌, ◌++◌, ◌∷◌, [], IsTrue, OnOk, OnErr, codes, length, decimal};
ghost use Rattle.dns_core.specs.NameText.{text_of};
ghost use Rattle.transcript_printer.specs.Appending.{Appends, spaced};
ghost use Rattle.dns_core.specs.CodeTexts.{type_text};
ghost use Rattle.text_lines.specs.Texts.{ip_text, protocol_text, error_word, has_error_word, line_of, record_lines};
ghost use Rattle.transcript_printer.specs.Log.{numbered_text, refused_words, outcome_words, entry_words, outcome_records, entry_records, entry_text, log_text, has_refusal_word, has_entry_words, has_log_words};
ghost use Rattle.dns_core.specs.declared.log.LogEntry.TheVariants.{Opened, Asked, Told};

use crate::codes::{put_error_word, put_protocol};
use crate::records::{put_message_details, put_sections, put_spaced_name, put_spaced_type};
use crate::words::{put_bytes, put_count, put_ip, put_number};
use dns_core::{Log, LogEntry, NetError, NoMemory, Protocol, Query, ToldOutcome};
use std::alloc::Global;
use std::net::IpAddr;

fn put_spaced_protocol(protocol: Protocol, out: &mut Vec<u8>) -> Result<(), NoMemory>
    ensures { Appends result out.old.items out.new.items (32 ∷ protocol_text protocol) }
{
    put_bytes(b" ", out)?;
    put_protocol(protocol, out)
}

fn put_peer(
    alloc: Global,
    ip: IpAddr,
    protocol: Protocol,
    out: &mut Vec<u8>,
) -> Result<(), NoMemory>
    ensures { Appends result out.old.items out.new.items (spaced (ip_text ip ∷ protocol_text protocol ∷ [])) }
{
    put_bytes(b" ", out)?;
    put_ip(alloc, ip, out)?;
    put_spaced_protocol(protocol, out)
}

fn put_query(query: &Query, out: &mut Vec<u8>) -> Result<(), NoMemory>
    ensures { Appends result out.old.items out.new.items (spaced (text_of query.now.name ∷ type_text query.now.query_type ∷ [])) }
{
    put_spaced_name(&query.name, out)?;
    put_spaced_type(query.query_type, out)
}

fn put_spaced_error_word(error: &NetError, out: &mut Vec<u8>) -> Result<(), NoMemory>
    ensures { Appends result out.old.items out.new.items (32 ∷ error_word error.now) }
{
    put_bytes(b" ", out)?;
    put_error_word(error, out)
}

fn put_refused(refused: &Option<NetError>, out: &mut Vec<u8>) -> Result<(), NoMemory>
    ensures { Appends result out.old.items out.new.items (spaced (refused_words refused.now)) }
{
    match refused {
        Some(error) => {
            put_bytes(b" refused", out)?;
            put_spaced_error_word(error, out)
        }
        None => Ok(()),
    }
}

fn put_outcome(outcome: &ToldOutcome, out: &mut Vec<u8>) -> Result<(), NoMemory>
    ensures { Appends result out.old.items out.new.items (spaced (outcome_words outcome.now)) }
{
    match outcome {
        ToldOutcome::Connected => put_bytes(b" connected", out),
        ToldOutcome::Message(m) => {
            put_bytes(b" message", out)?;
            put_message_details(m, out)
        }
        ToldOutcome::Error(error) => {
            put_bytes(b" error", out)?;
            put_spaced_error_word(error, out)
        }
    }
}

fn put_opened(
    alloc: Global,
    ip: IpAddr,
    protocol: Protocol,
    moment: u64,
    refused: &Option<NetError>,
    out: &mut Vec<u8>,
) -> Result<(), NoMemory>
    ensures { Appends result out.old.items out.new.items (spaced (entry_words (Opened ip protocol moment refused.now))) }
{
    put_bytes(b" opened", out)?;
    put_peer(alloc, ip, protocol, out)?;
    put_count(moment, out)?;
    put_refused(refused, out)
}

fn put_asked(
    alloc: Global,
    ip: IpAddr,
    protocol: Protocol,
    query: &Query,
    moment: u64,
    refused: &Option<NetError>,
    out: &mut Vec<u8>,
) -> Result<(), NoMemory>
    ensures { Appends result out.old.items out.new.items (spaced (entry_words (Asked ip protocol query.now moment refused.now))) }
{
    put_bytes(b" asked", out)?;
    put_peer(alloc, ip, protocol, out)?;
    put_query(query, out)?;
    put_count(moment, out)?;
    put_refused(refused, out)
}

/// What an order was told, and when.
fn put_told(of: u64, moment: u64, outcome: &ToldOutcome, out: &mut Vec<u8>) -> Result<(), NoMemory>
    ensures { Appends result out.old.items out.new.items (spaced (entry_words (Told of moment outcome.now))) }
{
    put_bytes(b" told", out)?;
    put_count(of, out)?;
    put_count(moment, out)?;
    put_outcome(outcome, out)
}

fn put_entry_words(alloc: Global, entry: &LogEntry, out: &mut Vec<u8>) -> Result<(), NoMemory>
    ensures { Appends result out.old.items out.new.items (spaced (entry_words entry.now)) }
{
    match entry {
        LogEntry::Opened {
            ip,
            protocol,
            moment,
            refused,
        } => put_opened(alloc, *ip, *protocol, *moment, refused, out),
        LogEntry::Asked {
            ip,
            protocol,
            query,
            moment,
            refused,
        } => put_asked(alloc, *ip, *protocol, query, *moment, refused, out),
        LogEntry::Waited { of } => {
            put_bytes(b" waited", out)?;
            put_count(*of, out)
        }
        LogEntry::Told {
            of,
            moment,
            outcome,
        } => put_told(*of, *moment, outcome, out),
        LogEntry::GaveUp { of, moment } => {
            put_bytes(b" gaveup", out)?;
            put_count(*of, out)?;
            put_count(*moment, out)
        }
    }
}

#[tactic(auto, using(crate::proofs::TextsAppended::line_of_words))]
fn put_entry_line(
    alloc: Global,
    number: u64,
    entry: &LogEntry,
    out: &mut Vec<u8>,
) -> Result<(), NoMemory>
    ensures { Appends result out.old.items out.new.items (line_of (decimal number ∷ entry_words entry.now)) }
{
    put_number(number, out)?;
    put_entry_words(alloc, entry, out)?;
    put_bytes(b"\n", out)?;
    Ok(())
}

fn put_entry_records(alloc: Global, entry: &LogEntry, out: &mut Vec<u8>) -> Result<(), NoMemory>
    ensures { Appends result out.old.items out.new.items (record_lines (entry_records entry.now)) }
{
    match entry {
        LogEntry::Told {
            outcome: ToldOutcome::Message(m),
            ..
        } => put_sections(alloc, m, out),
        _ => Ok(()),
    }
}

#[tactic(auto, unfolding(crate::specs::Log::entry_text))]
fn put_entry(
    alloc: Global,
    number: u64,
    entry: &LogEntry,
    out: &mut Vec<u8>,
) -> Result<(), NoMemory>
    ensures { Appends result out.old.items out.new.items (entry_text number entry.now) }
{
    put_entry_line(alloc, number, entry, out)?;
    put_entry_records(alloc, entry, out)
}

fn put_entries(alloc: Global, entries: &[LogEntry], out: &mut Vec<u8>) -> Result<(), NoMemory>
    ensures { Appends result out.old.items out.new.items (numbered_text entry_text 1 entries.now) }
{
    for (i, entry) in entries.iter().enumerate() {
        put_entry(alloc, i as u64 + 1, entry, out)?;
    }
    Ok(())
}

fn put_log_line(count: usize, out: &mut Vec<u8>) -> Result<(), NoMemory>
    ensures { Appends result out.old.items out.new.items (line_of (codes "log" ∷ decimal count ∷ [])) }
{
    put_bytes(b"log", out)?;
    put_count(count as u64, out)?;
    put_bytes(b"\n", out)
}

#[tactic(auto, unfolding(crate::specs::Log::log_text))]
pub fn put_log(alloc: Global, log: &Log, out: &mut Vec<u8>) -> Result<(), NoMemory>
    ensures { Appends result out.old.items out.new.items (log_text log.now) }
{
    put_log_line(log.len(), out)?;
    put_entries(alloc, log.items(), out)
}

fn has_error_word(error: &NetError) -> bool
    ensures { result ≡ has_error_word error.now }
{
    match error {
        NetError::Busy | NetError::Io(_) | NetError::Timeout => true,
        NetError::NoConnections | NetError::QueryCaseMismatch => true,
        _ => false,
    }
}

fn has_refusal_word(refused: &Option<NetError>) -> bool
    ensures { result ≡ has_refusal_word refused.now }
{
    match refused {
        Some(error) => has_error_word(error),
        None => true,
    }
}

fn has_entry_words(entry: &LogEntry) -> bool
    ensures { result ≡ has_entry_words entry.now }
{
    match entry {
        LogEntry::Opened { refused, .. } | LogEntry::Asked { refused, .. } => has_refusal_word(
            refused,
        ),
        LogEntry::Told {
            outcome: ToldOutcome::Error(error),
            ..
        } => has_error_word(error),
        _ => true,
    }
}

/// Whether each error that a log tells has its word.
pub fn has_log_words(log: &Log) -> bool
    ensures { result ≡ has_log_words log.now }
{
    log.items().iter().all(|entry| has_entry_words(entry))
}

/// Appends the number of entries and the line of each with those of its records, or leaves all as
/// it was.
pub fn print_log(alloc: Global, log: &Log, out: &mut Vec<u8>) -> Result<(), NoMemory>
    requires { IsTrue (has_log_words log.now) }
    ensures ok { OnOk result (out.new.items ≡ out.old.items ++ log_text log.now) }
    ensures err { OnErr result (out.new.items ≡ out.old.items) }
{
    let before = out.len();
    match put_log(alloc, log, out) {
        Ok(()) => Ok(()),
        Err(error) => {
            out.truncate(before);
            Err(error)
        }
    }
}
