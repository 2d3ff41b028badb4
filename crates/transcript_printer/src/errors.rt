//! The errors that questions are answered with.
ghost use Rattle.std.specs.Prelude.{◌≡◌, ◌++◌, ◌∷◌, [], IsTrue, OnOk, OnErr, codes, decimal, flat_map, option_to_list, is_some};
ghost use Rattle.transcript_printer.specs.Appending.{Appends, spaced};
ghost use Rattle.text_lines.specs.Texts.{record_lines, line_of};
ghost use Rattle.text_lines.specs.Texts.{flag_text};
ghost use Rattle.transcript_printer.specs.Errors.{cause_text, net_kind, net_details, net_words, has_net_words, message_kind_text, negative_words, error_kind, error_details, error_words, forward_text, error_tail, error_text, has_words};

use crate::records::{
    put_record, put_records, put_spaced_class, put_spaced_code, put_spaced_name, put_spaced_type,
};
use crate::words::{put_bytes, put_count};
use dns_core::{Boxed, DnsError, ForwardNsData, NetError, NoMemory, Record};
use recursor_types::{AuthorityData, MessageKind, RecursorError, WalkCause};
use std::alloc::Global;

fn put_flag(flag: bool, out: &mut Vec<u8>) -> Result<(), NoMemory>
    ensures { Appends result out.old.items out.new.items (32 ∷ flag_text flag) }
{
    put_bytes(if flag { b" 1" } else { b" 0" }, out)
}

fn cause_word(cause: WalkCause) -> &'static str
    ensures { result.now ≡ cause_text cause }
{
    match cause {
        WalkCause::DepthLimit => "DepthLimit",
        WalkCause::Timeout => "Timeout",
        WalkCause::NoAddress => "NoAddress",
        WalkCause::Budget => "Budget",
        WalkCause::ZoneEntries => "ZoneEntries",
        WalkCause::Collision => "Collision",
    }
}

fn message_kind_word(kind: MessageKind) -> &'static str
    ensures { result.now ≡ message_kind_text kind }
{
    match kind {
        MessageKind::NotQualified => "NotQualified",
        MessageKind::NoRoots => "NoRoots",
        MessageKind::ReversedTtl => "ReversedTtl",
        MessageKind::FirstDelays => "FirstDelays",
    }
}

fn put_spaced_text(text: &str, out: &mut Vec<u8>) -> Result<(), NoMemory>
    ensures { Appends result out.old.items out.new.items (32 ∷ text.now) }
{
    put_bytes(b" ", out)?;
    put_bytes(text.as_bytes(), out)
}

fn net_name(error: &NetError) -> &'static str
    ensures { result.now ≡ net_kind error.now }
{
    match error {
        NetError::Timeout => "Timeout",
        NetError::NoConnections => "NoConnections",
        NetError::Truncated => "Truncated",
        NetError::QueryCaseMismatch => "QueryCaseMismatch",
        NetError::Dns(DnsError::ResponseCode(_)) => "Code",
        NetError::ForeignClassRecord { .. } => "ForeignClassRecord",
        NetError::Dns(DnsError::NoRecordsFound(_)) => "NoRecords",
        NetError::Busy => "Busy",
        NetError::Io(_) => "Io",
        NetError::Msg(_) => "Msg",
        NetError::NoMemory => "NoMemory",
    }
}

fn put_net_details(error: &NetError, out: &mut Vec<u8>) -> Result<(), NoMemory>
    ensures { Appends result out.old.items out.new.items (spaced (net_details error.now)) }
{
    match error {
        NetError::Dns(DnsError::ResponseCode(code)) => put_spaced_code(*code, out),
        NetError::ForeignClassRecord {
            record_name,
            record_class,
            record_type,
        } => {
            put_spaced_name(record_name, out)?;
            put_spaced_class(*record_class, out)?;
            put_spaced_type(*record_type, out)
        }
        _ => Ok(()),
    }
}

fn put_net_words(error: &NetError, out: &mut Vec<u8>) -> Result<(), NoMemory>
    ensures { Appends result out.old.items out.new.items (spaced (net_words error.now)) }
{
    put_spaced_text(net_name(error), out)?;
    put_net_details(error, out)
}

/// The flags of a negative response.
fn put_negative_flags(negative: &AuthorityData, out: &mut Vec<u8>) -> Result<(), NoMemory>
    ensures { Appends result out.old.items out.new.items (spaced (flag_text negative.now.no_records_found ∷ flag_text negative.now.nx_domain ∷ flag_text (is_some negative.now.soa) ∷ [])) }
{
    put_flag(negative.no_records_found, out)?;
    put_flag(negative.nx_domain, out)?;
    put_flag(negative.soa.is_some(), out)
}

fn put_negative(negative: &AuthorityData, out: &mut Vec<u8>) -> Result<(), NoMemory>
    ensures { Appends result out.old.items out.new.items (spaced (negative_words negative.now)) }
{
    put_spaced_name(&negative.query.name, out)?;
    put_spaced_type(negative.query.query_type, out)?;
    put_negative_flags(negative, out)?;
    put_count(negative.authorities.len() as u64, out)
}

fn error_name(error: &RecursorError) -> &'static str
    ensures { result.now ≡ error_kind error.now }
{
    match error {
        RecursorError::MaxRecordLimitExceeded { .. } => "MaxRecordLimitExceeded",
        RecursorError::Message(_) => "Message",
        RecursorError::Msg(_) => "Msg",
        RecursorError::Negative(_) => "Negative",
        RecursorError::ForwardNS(_) => "ForwardNS",
        RecursorError::Io(_) => "Io",
        RecursorError::Net(_) => "Net",
        RecursorError::Timeout => "Timeout",
        RecursorError::RecursionLimitExceeded { .. } => "RecursionLimitExceeded",
        RecursorError::QueryBudgetExceeded => "QueryBudgetExceeded",
        RecursorError::NoNameServer { .. } => "NoNameServer",
        RecursorError::NoMemory => "NoMemory",
    }
}

fn put_error_details(error: &RecursorError, out: &mut Vec<u8>) -> Result<(), NoMemory>
    ensures { Appends result out.old.items out.new.items (spaced (error_details error.now)) }
{
    match error {
        RecursorError::MaxRecordLimitExceeded { count, record_type } => {
            put_count(*count as u64, out)?;
            put_spaced_type(*record_type, out)
        }
        RecursorError::Message(kind) => put_spaced_text(message_kind_word(*kind), out),
        RecursorError::Negative(negative) => put_negative(negative, out),
        RecursorError::ForwardNS(forwards) => put_count(forwards.len() as u64, out),
        RecursorError::Net(error) => put_net_words(error, out),
        RecursorError::RecursionLimitExceeded { count } => put_count(*count as u64, out),
        RecursorError::NoNameServer { zone, cause } => {
            put_spaced_name(zone, out)?;
            put_spaced_text(cause_word(*cause), out)
        }
        _ => Ok(()),
    }
}

/// How many addresses are known for the target of an NS record, before the record.
fn put_glue_count(count: usize, out: &mut Vec<u8>) -> Result<(), NoMemory>
    ensures { Appends result out.old.items out.new.items (codes "ns " ++ decimal count ++ codes " ") }
{
    put_bytes(b"ns", out)?;
    put_count(count as u64, out)?;
    put_bytes(b" ", out)
}

#[tactic(auto, unfolding(crate::specs::Errors::forward_text, text_lines::specs::Texts::record_line))]
fn put_forward(alloc: Global, forward: &ForwardNsData, out: &mut Vec<u8>) -> Result<(), NoMemory>
    ensures { Appends result out.old.items out.new.items (forward_text forward.now) }
{
    put_glue_count(forward.glue.len(), out)?;
    put_record(alloc, &forward.ns, out)?;
    put_records(alloc, forward.glue.items(), out)
}

fn put_forwards(
    alloc: Global,
    forwards: &[ForwardNsData],
    out: &mut Vec<u8>,
) -> Result<(), NoMemory>
    ensures { Appends result out.old.items out.new.items (flat_map forward_text forwards.now) }
{
    for forward in forwards {
        put_forward(alloc, forward, out)?;
    }
    Ok(())
}

fn put_optional_record(
    alloc: Global,
    entry: &Option<Boxed<Record>>,
    out: &mut Vec<u8>,
) -> Result<(), NoMemory>
    ensures { Appends result out.old.items out.new.items (record_lines (option_to_list entry.now)) }
{
    match entry {
        Some(entry) => put_record(alloc, entry.get(), out),
        None => Ok(()),
    }
}

fn put_error_tail(alloc: Global, error: &RecursorError, out: &mut Vec<u8>) -> Result<(), NoMemory>
    ensures { Appends result out.old.items out.new.items (error_tail error.now) }
{
    match error {
        RecursorError::Negative(negative) => {
            put_optional_record(alloc, &negative.soa, out)?;
            put_records(alloc, negative.authorities.items(), out)
        }
        RecursorError::ForwardNS(forwards) => put_forwards(alloc, forwards.items(), out),
        _ => Ok(()),
    }
}

#[tactic(auto, using(crate::proofs::TextsAppended::line_of_words))]
fn put_error_line(error: &RecursorError, out: &mut Vec<u8>) -> Result<(), NoMemory>
    ensures { Appends result out.old.items out.new.items (line_of (error_words error.now)) }
{
    put_bytes(error_name(error).as_bytes(), out)?;
    put_error_details(error, out)?;
    put_bytes(b"\n", out)
}

#[tactic(auto, unfolding(crate::specs::Errors::error_text))]
pub fn put_error(alloc: Global, error: &RecursorError, out: &mut Vec<u8>) -> Result<(), NoMemory>
    ensures { Appends result out.old.items out.new.items (error_text error.now) }
{
    put_error_line(error, out)?;
    put_error_tail(alloc, error, out)
}

fn has_net_words(error: &NetError) -> bool
    ensures { result ≡ has_net_words error.now }
{
    match error {
        NetError::Timeout
        | NetError::NoConnections
        | NetError::Truncated
        | NetError::QueryCaseMismatch => true,
        NetError::Dns(DnsError::ResponseCode(_)) | NetError::ForeignClassRecord { .. } => true,
        _ => false,
    }
}

/// Whether an error is one of those that replies carry, which have a text.
pub fn has_words(error: &RecursorError) -> bool
    ensures { result ≡ has_words error.now }
{
    match error {
        RecursorError::Message(kind) => matches!(kind, MessageKind::NotQualified),
        RecursorError::Net(error) => has_net_words(error),
        RecursorError::Msg(_) | RecursorError::Io(_) | RecursorError::Timeout => false,
        _ => true,
    }
}

/// Appends an error's line and those that follow it, or leaves all as it was.
pub fn print_error(alloc: Global, error: &RecursorError, out: &mut Vec<u8>) -> Result<(), NoMemory>
    requires { IsTrue (has_words error.now) }
    ensures ok { OnOk result (out.new.items ≡ out.old.items ++ error_text error.now) }
    ensures err { OnErr result (out.new.items ≡ out.old.items) }
{
    let before = out.len();
    match put_error(alloc, error, out) {
        Ok(()) => Ok(()),
        Err(error) => {
            out.truncate(before);
            Err(error)
        }
    }
}
