//! What the words of a line say.
ghost use Rattle.std.specs.Prelude.{◌≡◌, option_map};
ghost use Rattle.resolver_settings.specs.Directives.{words_behind, only_word, some_words, server_word, domain_word, search_words, option_words};

use crate::text_lines::Words;

/// The words behind the first one, where that is the keyword; else none.
fn words_behind<'a>(line: &Words<'a>, keyword: &[u8]) -> Words<'a>
    ensures { result ≡ words_behind keyword.now line.now }
{
    let mut words = line.again();
    match words.next() {
        Some(first) if first == keyword => words,
        _ => Words::none(),
    }
}

fn only_word<'a>(words: &Words<'a>) -> Option<&'a [u8]>
    ensures { option_map (λ w. w.now) result ≡ only_word words.now }
{
    let mut left = words.again();
    let word = left.next()?;
    match left.next() {
        None => Some(word),
        Some(_) => None,
    }
}

fn some_words<'a>(words: Words<'a>) -> Option<Words<'a>>
    ensures { result ≡ some_words words.entry }
{
    match words.again().next() {
        None => None,
        Some(_) => Some(words),
    }
}

/// The word that is to be a server's address.
pub(crate) fn server_word<'a>(line: &Words<'a>) -> Option<&'a [u8]>
    ensures { option_map (λ w. w.now) result ≡ server_word line.now }
{
    only_word(&words_behind(line, b"nameserver"))
}

/// The domain that a line sets.
pub(crate) fn domain_word<'a>(line: &Words<'a>) -> Option<&'a [u8]>
    ensures { option_map (λ w. w.now) result ≡ domain_word line.now }
{
    only_word(&words_behind(line, b"domain"))
}

/// The search list that a line sets: a domain is one of its own.
pub(crate) fn search_words<'a>(line: &Words<'a>) -> Option<Words<'a>>
    ensures { result ≡ search_words line.now }
{
    let domain = words_behind(line, b"domain");
    match only_word(&domain) {
        Some(_) => Some(domain),
        None => some_words(words_behind(line, b"search")),
    }
}

/// The options in a line.
pub(crate) fn option_words<'a>(line: &Words<'a>) -> Words<'a>
    ensures { result ≡ option_words line.now }
{
    words_behind(line, b"options")
}
