//! Names as text (RFC 1035 section 2.3.1, and RFC 2181 section 11 for the bytes of labels).
ghost use Rattle.std.specs.Prelude.{◌≡◌, ◌++◌, length, take, true, false, IfOk, OnOk, OnErr, nat_lt};
ghost use Rattle.std.specs.List.{list_all};
ghost use Rattle.dns_core.specs.NameText.{pieces, is_allowed, label_fault, first_fault, wire_length, name_of, text_of, separator, Gives};

use crate::errors::NoMemory;
use crate::label::{Label, Letter};
use crate::name::Name;
use std::alloc::Global;
use std::error::Error;
use std::fmt;

/// Why a text is no name.
#[derive(Clone, Copy, Debug, PartialEq, Eq)]
pub enum NameError {
    EmptyLabel,
    BadByte,
    LongLabel,
    LongName,
    NoMemory,
}

impl fmt::Display for NameError {
    ghost use Rattle.std.specs.Prelude.{Some};
    ghost use Rattle.dns_core.specs.ErrorTexts.{name_error_text};

    ghost output = { λ e. Some (name_error_text e) };

    fn fmt<W: fmt::Write>(&self, f: &mut fmt::Formatter<W>) -> fmt::Result {
        match self {
            NameError::EmptyLabel => f.write_str("a label is empty"),
            NameError::BadByte => f.write_str("a label has a byte that is not allowed"),
            NameError::LongLabel => f.write_str("a label has more than 63 bytes"),
            NameError::LongName => f.write_str("the name has more than 255 bytes in wire form"),
            NameError::NoMemory => f.write_str("out of memory"),
        }
    }
}

impl Error for NameError {}

impl From<NoMemory> for NameError {
    ghost use Rattle.dns_core.specs.declared.name_text.NameError.TheVariants.{NoMemory as no_memory};

    ghost from_gives = { λ _ e. e ≡ no_memory };

    fn from(_e: NoMemory) -> NameError {
        NameError::NoMemory
    }
}

/// The pieces of a text between its dots.
fn pieces(alloc: Global, text: &[u8]) -> Result<Vec<Label>, NoMemory>
    ensures { IfOk result (λ labels. labels.items ≡ pieces text.now) }
{
    let mut labels = Vec::new(alloc);
    let mut label = Vec::new(alloc);
    for b in text {
        if *b == b'.' {
            labels.push(Label::new(label))?;
            label = Vec::new(alloc);
        } else {
            label.push(Letter::new(*b))?;
        }
    }
    labels.push(Label::new(label))?;
    Ok(labels)
}

fn is_byte_allowed(b: u8, strict: bool) -> bool
    ensures { result ≡ is_allowed strict b }
{
    if strict {
        b.is_ascii_alphanumeric() || b == b'-' || b == b'_' || b == b'*'
    } else {
        b > 0x20 && b < 0x7f && b != b'\\' && b != b'.'
    }
}

fn are_allowed(letters: &[Letter], strict: bool) -> bool
    ensures { result ≡ list_all (is_allowed strict) letters.now }
{
    letters.iter().all(|l| is_byte_allowed(l.byte(), strict))
}

fn label_fault(label: &Label, strict: bool) -> Option<NameError>
    ensures { result ≡ label_fault strict label.now }
{
    let letters = label.letters();
    if letters.is_empty() {
        return Some(NameError::EmptyLabel);
    }
    if !are_allowed(letters, strict) {
        return Some(NameError::BadByte);
    }
    if letters.len() > 63 {
        return Some(NameError::LongLabel);
    }
    None
}

fn first_fault(labels: &[Label], strict: bool) -> Option<NameError>
    ensures { result ≡ first_fault strict labels.now }
{
    for label in labels {
        let fault = label_fault(label, strict);
        if fault.is_some() {
            return fault;
        }
    }
    None
}

/// Whether the wire form has more than 255 bytes.
fn is_long(labels: &[Label]) -> bool
    ensures { result ≡ nat_lt 255 (wire_length labels.now) }
{
    let mut left = 254;
    for label in labels {
        let len = label.letters().len();
        if len >= left {
            return true;
        }
        left -= len + 1;
    }
    false
}

/// The name that a text says; `strict` allows fewer bytes in labels.
fn read_name(alloc: Global, bytes: &[u8], strict: bool) -> Result<Name, NameError>
    ensures { Gives result (name_of strict bytes.now) }
{
    if bytes == b".".as_slice() {
        return Ok(Name::root(alloc));
    }
    let mut labels = pieces(alloc, bytes)?;
    let fqdn = labels.len() > 1 && labels[labels.len() - 1].letters().is_empty();
    if fqdn {
        let _last = labels.pop();
    }
    if let Some(fault) = first_fault(&labels, strict) {
        return Err(fault);
    }
    if is_long(&labels) {
        return Err(NameError::LongName);
    }
    Ok(Name::from_labels(alloc, labels, fqdn)?)
}

impl Name {
    /// Reads a name whose labels are letters, digits, `-`, `_` and `*`. Labels are checked from the
    /// left, each for emptiness, bytes and length; the length in wire form comes last. A final dot
    /// makes the name fully qualified.
    pub fn parse(alloc: Global, text: &str) -> Result<Name, NameError>
        ensures { Gives result (name_of true text.now) }
    {
        read_name(alloc, text.as_bytes(), true)
    }

    /// Reads a name whose labels hold any printing bytes of ASCII but the space, `\\` and the dot.
    pub fn parse_relaxed(alloc: Global, text: &str) -> Result<Name, NameError>
        ensures { Gives result (name_of false text.now) }
    {
        read_name(alloc, text.as_bytes(), false)
    }

    /// As `parse_relaxed`, of bytes that need not be text.
    pub fn parse_relaxed_bytes(alloc: Global, bytes: &[u8]) -> Result<Name, NameError>
        ensures { Gives result (name_of false bytes.now) }
    {
        read_name(alloc, bytes, false)
    }
}

fn push_letters(out: &mut Vec<u8>, letters: &[Letter]) -> Result<(), NoMemory>
    ensures ok { OnOk result (out.new.items ≡ out.old.items ++ letters.now) }
    ensures err { OnErr result (take (length out.old.items) out.new.items ≡ out.old.items) }
{
    for letter in letters {
        out.push(letter.byte())?;
    }
    Ok(())
}

/// Appends what stands before the label at a place.
fn push_separator(out: &mut Vec<u8>, place: usize) -> Result<(), NoMemory>
    ensures ok { OnOk result (out.new.items ≡ out.old.items ++ separator place) }
    ensures err { OnErr result (out.new.items ≡ out.old.items) }
{
    if place > 0 {
        out.push(b'.')?;
    }
    Ok(())
}

/// Appends the text of labels, whatever they are after an error but for what was there before.
#[tactic(auto, using(crate::proofs::Dotted::dotted_take))]
fn push_text(out: &mut Vec<u8>, labels: &[Label], fqdn: bool) -> Result<(), NoMemory>
    ensures ok { OnOk result (out.new.items ≡ out.old.items ++ text_of (record { labels = labels.now; fqdn = fqdn })) }
    ensures err { OnErr result (take (length out.old.items) out.new.items ≡ out.old.items) }
{
    for (i, label) in labels.iter().enumerate() {
        push_separator(out, i)?;
        push_letters(out, label.letters())?;
    }
    if fqdn {
        out.push(b'.')?;
    }
    Ok(())
}

impl Name {
    /// Appends its text. After an error nothing is appended.
    pub fn write_text(&self, _alloc: Global, out: &mut Vec<u8>) -> Result<(), NoMemory>
        ensures ok { OnOk result (out.new.items ≡ out.old.items ++ text_of self.now) }
        ensures err { OnErr result (out.new.items ≡ out.old.items) }
    {
        let start = out.len();
        match push_text(out, self.labels(), self.is_fqdn()) {
            Ok(()) => Ok(()),
            Err(e) => {
                out.truncate(start);
                Err(e)
            }
        }
    }
}
