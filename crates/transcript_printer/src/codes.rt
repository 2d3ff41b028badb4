//! Types, classes, response codes, protocols, flags and the words of errors of transport.
ghost use Rattle.std.specs.Prelude.{◌≡◌, ◌++◌, option_copied, unwrap_or, decimal};
ghost use Rattle.transcript_printer.specs.Appending.{Appends};
ghost use Rattle.dns_core.specs.CodeTexts.{name_in, type_names, class_names, code_names, type_text, class_text, response_code_text};
ghost use Rattle.text_lines.specs.Texts.{protocol_text, flags_text, error_word};

use crate::words::{put_bytes, put_number};
use dns_core::{DnsClass, IoKind, NetError, NoMemory, Protocol, RecordType, ResponseCode};

/// A name, or where there is none the number behind a word.
fn put_named(
    name: Option<&str>,
    other: &str,
    number: u16,
    out: &mut Vec<u8>,
) -> Result<(), NoMemory>
    ensures { Appends result out.old.items out.new.items (unwrap_or (option_copied name.entry) (other.now ++ decimal number)) }
{
    match name {
        Some(name) => put_bytes(name.as_bytes(), out),
        None => {
            put_bytes(other.as_bytes(), out)?;
            put_number(u64::from(number), out)
        }
    }
}

#[tactic(auto, unfolding(dns_core::specs::CodeTexts::type_text))]
pub fn put_type(record_type: RecordType, out: &mut Vec<u8>) -> Result<(), NoMemory>
    ensures { Appends result out.old.items out.new.items (type_text record_type) }
{
    put_named(record_type.name(), "TYPE", record_type.code, out)
}

#[tactic(auto, unfolding(dns_core::specs::CodeTexts::class_text))]
pub fn put_class(class: DnsClass, out: &mut Vec<u8>) -> Result<(), NoMemory>
    ensures { Appends result out.old.items out.new.items (class_text class) }
{
    put_named(class.name(), "CLASS", class.code, out)
}

#[tactic(auto, unfolding(dns_core::specs::CodeTexts::response_code_text))]
pub fn put_response_code(code: ResponseCode, out: &mut Vec<u8>) -> Result<(), NoMemory>
    ensures { Appends result out.old.items out.new.items (response_code_text code) }
{
    put_named(code.name(), "RCODE", code.code, out)
}

fn protocol_word(protocol: Protocol) -> &'static str
    ensures { result.now ≡ protocol_text protocol }
{
    match protocol {
        Protocol::Udp => "udp",
        Protocol::Tcp => "tcp",
        Protocol::Tls => "tls",
        Protocol::Https => "https",
        Protocol::Quic => "quic",
        Protocol::H3 => "h3",
    }
}

pub fn put_protocol(protocol: Protocol, out: &mut Vec<u8>) -> Result<(), NoMemory>
    ensures { Appends result out.old.items out.new.items (protocol_text protocol) }
{
    put_bytes(protocol_word(protocol).as_bytes(), out)
}

fn flags_word(authoritative: bool, truncation: bool) -> &'static str
    ensures { result.now ≡ flags_text authoritative truncation }
{
    match (authoritative, truncation) {
        (false, false) => "none",
        (true, false) => "aa",
        (false, true) => "tc",
        (true, true) => "aa+tc",
    }
}

pub fn put_flags(authoritative: bool, truncation: bool, out: &mut Vec<u8>) -> Result<(), NoMemory>
    ensures { Appends result out.old.items out.new.items (flags_text authoritative truncation) }
{
    put_bytes(flags_word(authoritative, truncation).as_bytes(), out)
}

/// The word of an error; the empty text where it has none.
fn error_word(error: &NetError) -> &'static str
    ensures { result.now ≡ error_word error.now }
{
    match error {
        NetError::Busy => "busy",
        NetError::Io(IoKind::Other) => "io",
        NetError::Io(IoKind::Closed) => "closed",
        NetError::Io(IoKind::Refused) => "refused",
        NetError::Timeout => "timeout",
        NetError::NoConnections => "noconnections",
        NetError::QueryCaseMismatch => "mismatch",
        _ => "",
    }
}

pub fn put_error_word(error: &NetError, out: &mut Vec<u8>) -> Result<(), NoMemory>
    ensures { Appends result out.old.items out.new.items (error_word error.now) }
{
    put_bytes(error_word(error).as_bytes(), out)
}
