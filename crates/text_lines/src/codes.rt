//! Types, classes and response codes, each by its one word.
ghost use Rattle.std.specs.Prelude.{◌≡◌, map};
ghost use Rattle.dns_core.specs.CodeTexts.{type_names, class_names, code_names};
ghost use Rattle.text_lines.specs.Codes.{code_in, number_behind, type_of, class_of, response_code_of};

use crate::numbers::number;
use dns_core::{DnsClass, RecordType, ResponseCode};

/// The types that have names.
static TYPES: [(u16, &[u8]); 23] = [
    (1, b"A"),
    (2, b"NS"),
    (5, b"CNAME"),
    (6, b"SOA"),
    (10, b"NULL"),
    (12, b"PTR"),
    (15, b"MX"),
    (16, b"TXT"),
    (28, b"AAAA"),
    (33, b"SRV"),
    (41, b"OPT"),
    (43, b"DS"),
    (46, b"RRSIG"),
    (47, b"NSEC"),
    (48, b"DNSKEY"),
    (50, b"NSEC3"),
    (51, b"NSEC3PARAM"),
    (64, b"SVCB"),
    (65, b"HTTPS"),
    (251, b"IXFR"),
    (252, b"AXFR"),
    (255, b"ANY"),
    (257, b"CAA"),
];

/// The classes that have names.
static CLASSES: [(u16, &[u8]); 3] = [(1, b"IN"), (3, b"CH"), (4, b"HS")];

/// The response codes that have names.
static RESPONSE_CODES: [(u16, &[u8]); 6] = [
    (0, b"NOERROR"),
    (1, b"FORMERR"),
    (2, b"SERVFAIL"),
    (3, b"NXDOMAIN"),
    (4, b"NOTIMP"),
    (5, b"REFUSED"),
];

/// The number that a table names so.
fn code_in(mut table: &[(u16, &[u8])], word: &[u8]) -> Option<u16>
    ensures { result ≡ code_in (map (λ e. (e.0, e.1.now)) table.entry.now) word.now }
{
    while let [entry, rest @ ..] = table {
        if word == entry.1 {
            return Some(entry.0);
        }
        table = rest;
    }
    None
}

/// The number of a type that has a name.
#[tactic(auto, unfolding(dns_core::specs::CodeTexts::type_names))]
fn named_type(word: &[u8]) -> Option<u16>
    ensures { result ≡ code_in type_names word.now }
{
    code_in(&TYPES, word)
}

/// The number behind a word.
fn number_behind(word: &[u8], other: &[u8]) -> Option<u16>
    ensures { result ≡ number_behind other.now word.now }
{
    if other.len() < word.len() && &word[..other.len()] == other {
        let code = number(&word[other.len()..], 65_535)?;
        return Some(code as u16);
    }
    None
}

/// The type that a word names.
#[tactic(auto, unfolding(crate::specs::Codes::type_of))]
pub fn record_type(word: &[u8]) -> Option<RecordType>
    ensures { result ≡ type_of word.now }
{
    if let Some(code) = named_type(word) {
        return Some(RecordType { code });
    }
    let code = number_behind(word, b"TYPE")?;
    let numbered = RecordType { code };
    if numbered.name().is_some() {
        return None;
    }
    Some(numbered)
}

/// The number of a class that has a name.
#[tactic(auto, unfolding(dns_core::specs::CodeTexts::class_names))]
fn named_class(word: &[u8]) -> Option<u16>
    ensures { result ≡ code_in class_names word.now }
{
    code_in(&CLASSES, word)
}

/// The class that a word names.
#[tactic(auto, unfolding(crate::specs::Codes::class_of))]
pub fn dns_class(word: &[u8]) -> Option<DnsClass>
    ensures { result ≡ class_of word.now }
{
    if let Some(code) = named_class(word) {
        return Some(DnsClass { code });
    }
    let code = number_behind(word, b"CLASS")?;
    let numbered = DnsClass { code };
    if numbered.name().is_some() {
        return None;
    }
    Some(numbered)
}

/// The number of a response code that has a name.
#[tactic(auto, unfolding(dns_core::specs::CodeTexts::code_names))]
fn named_response_code(word: &[u8]) -> Option<u16>
    ensures { result ≡ code_in code_names word.now }
{
    code_in(&RESPONSE_CODES, word)
}

/// The response code that a word names.
#[tactic(auto, unfolding(crate::specs::Codes::response_code_of))]
pub fn response_code(word: &[u8]) -> Option<ResponseCode>
    ensures { result ≡ response_code_of word.now }
{
    if let Some(code) = named_response_code(word) {
        return Some(ResponseCode { code });
    }
    let code = number_behind(word, b"RCODE")?;
    let numbered = ResponseCode { code };
    if numbered.name().is_some() {
        return None;
    }
    Some(numbered)
}
