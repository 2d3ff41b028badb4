//! Numbers as text, each in its one spelling.
ghost use Rattle.std.specs.Prelude.{◌≡◌};
ghost use Rattle.resolver_settings.specs.NumberText.{ReadsNumber, has_needless_front};

/// A word begins with what a number could do without: a sign, or a zero before further digits.
fn has_needless_front(word: &[u8]) -> bool
    ensures { result ≡ has_needless_front word.now }
{
    match word {
        [] => false,
        [first, rest @ ..] => *first == b'+' || (*first == b'0' && !rest.is_empty()),
    }
}

/// The number that a word spells.
pub(crate) fn number_in(word: &[u8]) -> Option<u16>
    ensures { ReadsNumber word.now result }
{
    if has_needless_front(word) {
        return None;
    }
    let Ok(text) = str::from_utf8(word) else {
        return None;
    };
    match text.parse() {
        Ok(n) => Some(n),
        Err(_) => None,
    }
}
