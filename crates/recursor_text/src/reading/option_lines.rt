//! Option lines of the whole format, which are not all read yet: which values they may have, and in
//! which order they stand.
ghost use Rattle.std.specs.Prelude.{◌≡◌};
ghost use Rattle.text_lines.specs.Fields.{Gives, GivesFields, checked};
ghost use Rattle.recursor_text.specs.OptionLines.{number_line, networks_line, ports_line, delays_line, bounds_line, damping_line, encryption_line, is_minimization, minimization_line, is_network_option, is_bounds_option, most_of, listed_line, value_line, rank_of, option_line};

use std::alloc::Global;
use text_lines::{LineError, Words, pass};

fn is_minimization(word: &[u8]) -> bool
    ensures { result ≡ is_minimization word.now }
{
    word == b"strict".as_slice() || word == b"relaxed".as_slice()
}

fn minimization(words: &mut Words) -> Result<(), LineError>
    ensures { GivesFields result words.new (checked is_minimization words.old) }
{
    let Some(word) = words.next() else {
        return Err(LineError::Refused);
    };
    pass(is_minimization(word))
}

#[tactic(auto, unfolding(crate::specs::OptionLines::number_line))]
fn number_line(words: &mut Words, most: u64) -> Result<(), LineError>
    ensures { Gives result (number_line most words.old) }
{
    words.number(0, most)?;
    words.end()?;
    Ok(())
}

#[tactic(auto, unfolding(crate::specs::OptionLines::networks_line))]
fn networks_line(alloc: Global, words: &mut Words) -> Result<(), LineError>
    ensures { Gives result (networks_line words.old) }
{
    let _nets = words.nets(alloc)?;
    words.end()?;
    Ok(())
}

#[tactic(auto, unfolding(crate::specs::OptionLines::ports_line))]
fn ports_line(alloc: Global, words: &mut Words) -> Result<(), LineError>
    ensures { Gives result (ports_line words.old) }
{
    let _ports = words.ports(alloc)?;
    words.end()?;
    Ok(())
}

#[tactic(auto, unfolding(crate::specs::OptionLines::delays_line))]
fn delays_line(alloc: Global, words: &mut Words) -> Result<(), LineError>
    ensures { Gives result (delays_line words.old) }
{
    let _delays = words.delays(alloc)?;
    words.end()?;
    Ok(())
}

#[tactic(auto, unfolding(crate::specs::OptionLines::bounds_line))]
fn bounds_line(words: &mut Words) -> Result<(), LineError>
    ensures { Gives result (bounds_line words.old) }
{
    let least = words.number(0, 4_294_967_295)?;
    words.number(least, 4_294_967_295)?;
    words.end()?;
    Ok(())
}

#[tactic(auto, unfolding(crate::specs::OptionLines::damping_line))]
fn damping_line(words: &mut Words) -> Result<(), LineError>
    ensures { Gives result (damping_line words.old) }
{
    words.number(0, 4_294_967_295)?;
    words.number(0, 4_294_967_295)?;
    words.number(0, 255)?;
    words.end()?;
    Ok(())
}

#[tactic(auto, unfolding(crate::specs::OptionLines::encryption_line))]
fn encryption_line(words: &mut Words) -> Result<(), LineError>
    ensures { Gives result (encryption_line words.old) }
{
    let Some(word) = words.next() else {
        return Err(LineError::Refused);
    };
    if word == b"off".as_slice() {
        words.end()?;
        return Ok(());
    }
    if word == b"on".as_slice() {
        return damping_line(words);
    }
    Err(LineError::Refused)
}

#[tactic(auto, unfolding(crate::specs::OptionLines::minimization_line))]
fn minimization_line(words: &mut Words) -> Result<(), LineError>
    ensures { Gives result (minimization_line words.old) }
{
    minimization(words)?;
    words.end()?;
    Ok(())
}

#[tactic(auto, unfolding(crate::specs::OptionLines::is_network_option))]
fn is_network_option(word: &[u8]) -> bool
    ensures { result ≡ is_network_option word.now }
{
    word == b"allow_answers".as_slice()
        || word == b"deny_answers".as_slice()
        || word == b"allow_server".as_slice()
        || word == b"deny_server".as_slice()
}

#[tactic(auto, unfolding(crate::specs::OptionLines::is_bounds_option))]
fn is_bounds_option(word: &[u8]) -> bool
    ensures { result ≡ is_bounds_option word.now }
{
    word == b"positive_ttl".as_slice() || word == b"negative_ttl".as_slice()
}

/// The greatest value of an option that is a number.
#[tactic(auto, unfolding(crate::specs::OptionLines::most_of))]
fn most_of(word: &[u8]) -> Option<u64>
    ensures { result ≡ most_of word.now }
{
    if word == b"ns_cache_size".as_slice() {
        return Some(65_536);
    }
    if word == b"response_cache_size".as_slice() {
        return Some(4_194_304);
    }
    if word == b"recursion_limit".as_slice() {
        return Some(255);
    }
    if word == b"ns_recursion_limit".as_slice() {
        return Some(255);
    }
    if word == b"case_randomization".as_slice() {
        return Some(1);
    }
    if word == b"edns_payload_len".as_slice() {
        return Some(65_535);
    }
    None
}

#[tactic(auto, unfolding(crate::specs::OptionLines::listed_line))]
fn listed_line(alloc: Global, word: &[u8], words: &mut Words) -> Result<(), LineError>
    ensures { Gives result (listed_line word.now words.old) }
{
    if is_network_option(word) {
        return networks_line(alloc, words);
    }
    if word == b"avoid_local_udp_ports".as_slice() {
        return ports_line(alloc, words);
    }
    if is_bounds_option(word) {
        return bounds_line(words);
    }
    if word == b"encryption".as_slice() {
        return encryption_line(words);
    }
    if word == b"qname_minimization".as_slice() {
        return minimization_line(words);
    }
    if word == b"first_delays".as_slice() {
        return delays_line(alloc, words);
    }
    Err(LineError::Refused)
}

/// The value of an option.
#[tactic(auto, unfolding(crate::specs::OptionLines::value_line))]
fn value_line(alloc: Global, word: &[u8], words: &mut Words) -> Result<(), LineError>
    ensures { Gives result (value_line word.now words.old) }
{
    match most_of(word) {
        Some(most) => number_line(words, most),
        None => listed_line(alloc, word, words),
    }
}

/// The place of an option in the order of all options, from 1; 0 for a word that names none.
#[tactic(auto, unfolding(crate::specs::OptionLines::rank_of))]
fn rank_of(word: &[u8]) -> u8
    ensures { result ≡ rank_of word.now }
{
    if word == b"ns_cache_size".as_slice() {
        1
    } else if word == b"response_cache_size".as_slice() {
        2
    } else if word == b"recursion_limit".as_slice() {
        3
    } else if word == b"ns_recursion_limit".as_slice() {
        4
    } else if word == b"allow_answers".as_slice() {
        5
    } else if word == b"deny_answers".as_slice() {
        6
    } else if word == b"allow_server".as_slice() {
        7
    } else if word == b"deny_server".as_slice() {
        8
    } else if word == b"avoid_local_udp_ports".as_slice() {
        9
    } else if word == b"positive_ttl".as_slice() {
        10
    } else if word == b"negative_ttl".as_slice() {
        11
    } else if word == b"case_randomization".as_slice() {
        12
    } else if word == b"encryption".as_slice() {
        13
    } else if word == b"edns_payload_len".as_slice() {
        14
    } else if word == b"qname_minimization".as_slice() {
        15
    } else if word == b"first_delays".as_slice() {
        16
    } else {
        0
    }
}

/// An option and its value, where its rank is above `low`.
#[tactic(auto, unfolding(crate::specs::OptionLines::option_line))]
pub fn option_line(alloc: Global, low: u8, words: &mut Words) -> Result<(), LineError>
    ensures { Gives result (option_line low words.old) }
{
    let Some(word) = words.next() else {
        return Err(LineError::Refused);
    };
    pass(low < rank_of(word))?;
    value_line(alloc, word, words)
}
