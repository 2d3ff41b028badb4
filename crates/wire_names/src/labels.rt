//! One label of a name.
ghost use Rattle.std.specs.Prelude.{◌≡◌, false, nat_lt, Ok};
ghost use Rattle.std.specs.List.{list_all};
ghost use Rattle.dns_core.specs.NameText.{is_allowed, wire_length};
ghost use Rattle.wire_names.specs.Reading.{Gives, label_of};

use crate::errors::WireError;
use dns_core::{Label, Letter};
use std::alloc::Global;

fn is_allowed(byte: u8) -> bool
    ensures { result ≡ is_allowed false byte }
{
    byte > 0x20 && byte < 0x7f && byte != b'\\' && byte != b'.'
}

fn are_allowed(bytes: &[u8]) -> bool
    ensures { result ≡ list_all (is_allowed false) bytes.now }
{
    bytes.iter().all(|b| is_allowed(*b))
}

fn letters_of(alloc: Global, bytes: &[u8]) -> Result<Vec<Letter>, WireError>
    ensures { Gives (λ v. v.items) result (Ok bytes.now) }
{
    let mut letters = Vec::with_capacity(alloc, bytes.len())?;
    for b in bytes {
        letters.push(Letter::new(*b))?;
    }
    Ok(letters)
}

/// The label whose length byte says `count`, and what follows it.
pub fn label_of<'a>(
    alloc: Global,
    count: usize,
    bytes: &'a [u8],
) -> Result<(Label, &'a [u8]), WireError>
    ensures { Gives (λ x. (x.0, x.1.now)) result (label_of count bytes.now) }
{
    if bytes.len() < count {
        return Err(WireError::Short);
    }
    let (label, rest) = bytes.split_at(count);
    if !are_allowed(label) {
        return Err(WireError::BadByte);
    }
    Ok((Label::new(letters_of(alloc, label)?), rest))
}

/// Whether a name of these labels has more than 255 bytes.
pub fn is_long(labels: &[Label]) -> bool
    ensures { result ≡ nat_lt 255 (wire_length labels.now) }
{
    let mut left = 254;
    for label in labels {
        let len = label.letters().len();
        if len >= left {
            return true;
        }
        left -= len + 1;
    }
    false
}
