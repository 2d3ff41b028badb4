//! Numbers and IPv4 addresses, each in its one spelling.
ghost use Rattle.std.specs.Prelude.{◌≡◌, ◌≤◌, IfSome, option_map};
ghost use Rattle.text_lines.specs.Numbers.{next_value, number_of, ipv4_of};

use crate::pieces::cut;
use std::net::Ipv4Addr;

/// The number that a word spells, where it is at most `most`.
pub fn number(word: &[u8], most: u64) -> Option<u64>
    ensures value { result ≡ number_of most word.now }
    ensures within { IfSome result (λ n. n ≤ most) }
{
    if word.is_empty() || (word[0] == b'0' && word.len() > 1) {
        return None;
    }
    let mut value: u64 = 0;
    for b in word {
        value = next_value(value, *b, most)?;
    }
    Some(value)
}

/// The number with one digit more.
fn next_value(value: u64, b: u8, most: u64) -> Option<u64>
    ensures stepped { result ≡ next_value most value b }
    ensures within { IfSome result (λ n. n ≤ most) }
{
    if !b.is_ascii_digit() {
        return None;
    }
    let digit = u64::from(b - b'0');
    let next = value.checked_mul(10)?.checked_add(digit)?;
    if next > most {
        return None;
    }
    Some(next)
}

/// The address that a word spells.
pub fn ipv4(word: &[u8]) -> Option<Ipv4Addr>
    ensures { result ≡ ipv4_of word.now }
{
    let (first, rest) = cut(word, b'.');
    let (second, rest) = cut(rest?, b'.');
    let (third, rest) = cut(rest?, b'.');
    let (fourth, rest) = cut(rest?, b'.');
    if let Some(_more) = rest {
        return None;
    }
    let a = octet(first)?;
    let b = octet(second)?;
    let c = octet(third)?;
    let d = octet(fourth)?;
    Some(Ipv4Addr::new(a, b, c, d))
}

fn octet(word: &[u8]) -> Option<u8>
    ensures { result ≡ number_of 255 word.now }
{
    let n = number(word, 255)?;
    Some(n as u8)
}
