//! The search list and the domain that the lines of a text set.
ghost use Rattle.std.specs.Prelude.{◌≡◌, ◌<◌, ◌+◌, ◌^◌, length, option_map, IfOk};
ghost use Rattle.resolver_settings.specs.TextLines.{lines_of};
ghost use Rattle.resolver_settings.specs.ConfError.{Gives};
ghost use Rattle.resolver_settings.specs.SearchList.{last_list, last_domain, search_names, spelled_name, domain_of_host, domain_name, domain_of};

use crate::conf_error::ConfError;
use crate::directives::{domain_word, search_words};
use crate::text_lines::{Lines, Words};
use dns_core::{Name, NameError, Names, NoMemory};
use std::alloc::Global;

/// The last search list, whether a domain or a search set it.
pub(crate) fn last_list(text: &[u8]) -> Words<'_>
    ensures { result ≡ last_list (lines_of text.now) }
{
    let mut last = None;
    let mut lines = Lines::of(text);
    'lines: while let Some(line) = lines.next() {
        if let Some(list) = search_words(&line) {
            last = Some(list);
        }
    }
    match last {
        None => Words::none(),
        Some(list) => list,
    }
}

/// The domain that the last such line sets.
fn last_domain(text: &[u8]) -> Option<&[u8]>
    ensures { option_map (λ w. w.now) result ≡ last_domain (lines_of text.now) }
{
    let mut last = None;
    let mut lines = Lines::of(text);
    'lines: while let Some(line) = lines.next() {
        if let Some(word) = domain_word(&line) {
            last = Some(word);
        }
    }
    last
}

/// The names of a search list.
pub(crate) fn search_names(alloc: Global, mut words: Words) -> Result<Names, ConfError>
    requires { length words < 2 ^ 32 }
    ensures { Gives result (search_names words.entry) }
{
    let mut names = Names::empty(alloc);
    let mut number: u32 = 0;
    'words: while let Some(word) = words.next() {
        number += 1;
        if word != b"--".as_slice() {
            match spelled_name(alloc, word)? {
                Some(name) => names.push(name)?,
                None => return Err(ConfError::BadSearchName(number)),
            }
        }
    }
    Ok(names)
}

/// The name that a word spells.
fn spelled_name(alloc: Global, word: &[u8]) -> Result<Option<Name>, NoMemory>
    ensures { IfOk result (λ name. name ≡ spelled_name word.now) }
{
    match Name::parse_relaxed_bytes(alloc, word) {
        Ok(name) => Ok(Some(name)),
        Err(NameError::NoMemory) => Err(NoMemory),
        Err(_) => Ok(None),
    }
}

/// The part of a host's name after its first dot.
fn domain_of_host(host: &str) -> Option<&str>
    ensures { option_map (λ w. w.now) result ≡ domain_of_host host.now }
{
    match host.split_once('.') {
        None => None,
        Some((_, domain)) => Some(domain),
    }
}

/// The name that a domain's text says.
fn domain_name(alloc: Global, text: Option<&str>) -> Result<Option<Name>, NoMemory>
    ensures { IfOk result (λ domain. domain ≡ domain_name (option_map (λ w. w.now) text.entry)) }
{
    let Some(text) = text else {
        return Ok(None);
    };
    match Name::parse(alloc, text) {
        Ok(name) => Ok(Some(name)),
        Err(NameError::NoMemory) => Err(NoMemory),
        Err(_) => Ok(None),
    }
}

/// The domain that the text sets or, without one, that of the host.
pub(crate) fn domain_of(alloc: Global, text: &[u8], host: &str) -> Result<Option<Name>, NoMemory>
    ensures { IfOk result (λ domain. domain ≡ domain_of (lines_of text.now) host.now) }
{
    match last_domain(text) {
        None => domain_name(alloc, domain_of_host(host)),
        Some(word) => match str::from_utf8(word) {
            Ok(word) => domain_name(alloc, Some(word)),
            Err(_) => Ok(None),
        },
    }
}
