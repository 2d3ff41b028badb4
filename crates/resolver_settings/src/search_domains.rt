//! The domains in which names are looked for (RFC 1123 section 6.1.4.3), as text.
ghost use Rattle.std.specs.Prelude.{◌≡◌, ◌++◌, OnOk, string_bytes, encode_utf8};
ghost use Rattle.resolver_settings.specs.SearchDomains.{is_separator, words_of, names_of, with_word, GivesNames};

use dns_core::{Name, NameError, Names, NoMemory};
use std::alloc::Global;

fn is_separator(c: char) -> bool
    ensures { result ≡ is_separator c }
{
    c.is_whitespace() || c == '\0'
}

fn push(word: &mut String, c: char) -> Result<(), NoMemory>
    ensures { OnOk result (string_bytes word.new ≡ string_bytes word.old ++ encode_utf8 c) }
{
    word.push(c)?;
    Ok(())
}

/// Adds the name that a word says; an empty word adds none.
fn with_word(alloc: Global, mut names: Names, word: &str) -> Result<Names, NameError>
    ensures { GivesNames result (with_word names word.now) }
{
    if word.is_empty() {
        return Ok(names);
    }
    let name = Name::parse(alloc, word)?;
    names.push(name)?;
    Ok(names)
}

/// The domains of a text, with any white space or NUL between them, each as `Name::parse` reads it.
/// The first that is no name is the error.
pub fn parse_search_domains(alloc: Global, raw: &str) -> Result<Names, NameError>
    ensures { GivesNames result (names_of (words_of raw.now)) }
{
    let mut names = Names::empty(alloc);
    let mut word = String::new(alloc);
    for c in raw.chars() {
        if is_separator(c) {
            names = with_word(alloc, names, &word)?;
            word.clear();
        } else {
            push(&mut word, c)?;
        }
    }
    with_word(alloc, names, &word)
}
