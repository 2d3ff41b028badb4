//! How many records a zone has: a number without a bound, in its one spelling.
ghost use Rattle.std.specs.Prelude.{◌≡◌, ◌==◌, ◌^◌, ◌≤◌, IsTrue, IfOk};
ghost use Rattle.std.specs.Char.{is_ascii_digit};
ghost use Rattle.std.specs.List.{list_all};
ghost use Rattle.std.specs.Str.Parse.{digits_value};
ghost use Rattle.text_lines.specs.Fields.{Gives};
ghost use Rattle.recursor_text.specs.Counts.{has_leading_zero, is_numeral, numeral_value, narrow_value};

use dns_core::{Bytes, NoMemory};
use std::alloc::Global;
use std::marker::Model;
use text_lines::{LineError, Words};

/// A number of 64 bits, or the digits of a greater one.
#[derive(Drop)]
enum Kept {
    Narrow(u64),
    Wide(Bytes),
}

/// How many records a zone has; clauses see the number.
#[derive(Drop)]
pub struct Count {
    kept: Kept,
}

impl Model for Count {
    ghost use Rattle.std.specs.Prelude.{ℕ};
    ghost use Rattle.recursor_text.specs.Counts.{kept_value, IsKept};

    ghost Value = { ℕ };

    ghost view = { λ a. kept_value a.kept };

    ghost invariant = { λ a. IsKept a.kept };
}

fn all_digits(word: &[u8]) -> bool
    ensures { result ≡ list_all is_ascii_digit word.now }
{
    word.iter().all(|c| c.is_ascii_digit())
}

fn has_leading_zero(word: &[u8]) -> bool
    ensures { result ≡ has_leading_zero word.now }
{
    word.len() > 1 && word[0] == b'0'
}

/// Whether a word is that of a number, however great.
fn is_numeral(word: &[u8]) -> bool
    ensures { result ≡ is_numeral word.now }
{
    !word.is_empty() && all_digits(word) && !has_leading_zero(word)
}

/// The number that a word of digits spells, where it has 64 bits.
#[tactic(auto, using(crate::proofs::CountLaws::alone))]
fn narrow(word: &[u8]) -> Result<u64, LineError>
    requires { IsTrue (is_numeral word.now) }
    ensures { Gives result (narrow_value word.now) }
{
    let mut words = Words::new(word);
    words.number(0, u64::MAX)
}

/// The number of these digits, which has more than 64 bits.
fn wide(alloc: Global, word: &[u8]) -> Result<Count, NoMemory>
    requires { 2 ^ 64 ≤ digits_value 10 word.now }
    ensures { IfOk result (λ count. count ≡ digits_value 10 word.now) }
{
    let digits = Vec::from_slice(alloc, word)?;
    Ok(Count {
        kept: Kept::Wide(Bytes::new(digits)),
    })
}

impl Count {
    /// The number that a word spells. Only one of more than 64 bits takes memory.
    #[tactic(auto, using(crate::proofs::CountLaws::narrow_takes, crate::proofs::CountLaws::narrow_refuses))]
    pub(crate) fn read(alloc: Global, word: &[u8]) -> Result<Count, LineError>
        ensures { Gives result (numeral_value word.now) }
    {
        if !is_numeral(word) {
            return Err(LineError::Refused);
        }
        match narrow(word) {
            Ok(number) => Ok(Count {
                kept: Kept::Narrow(number),
            }),
            Err(LineError::Refused) => {
                let count = wide(alloc, word)?;
                Ok(count)
            }
            Err(LineError::NoMemory) => Err(LineError::NoMemory),
        }
    }

    /// Whether it is this number.
    pub(crate) fn is(&self, number: usize) -> bool
        ensures { result ≡ (number == self.now) }
    {
        match &self.kept {
            Kept::Narrow(count) => *count == number as u64,
            Kept::Wide(_) => false,
        }
    }
}
