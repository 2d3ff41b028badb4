//! The options that the lines of a text set.
ghost use Rattle.std.specs.Prelude.{◌≡◌, ◌*◌, ◌∷◌, [], option_map, IfOk};
ghost use Rattle.std.specs.Option.{unwrap_or};
ghost use Rattle.resolver_settings.specs.Directives.{option_words};
ghost use Rattle.resolver_settings.specs.TextLines.{lines_of};
ghost use Rattle.resolver_settings.specs.TextOptions.{number_of, number_behind, changed_by, options_of};

use crate::directives::option_words;
use crate::number_text::number_in;
use crate::options::ResolverOpts;
use crate::text_lines::{Lines, Words};
use dns_core::NoMemory;
use std::alloc::Global;

fn number_of(word: &[u8]) -> Option<u16>
    ensures { result ≡ number_of word.now }
{
    number_in(word)
}

/// The number behind the front of an option.
fn number_behind(front: &[u8], word: &[u8]) -> Option<u16>
    ensures { result ≡ number_behind front.now word.now }
{
    number_of(word.strip_prefix(front)?)
}

fn usize_or(number: Option<u16>, otherwise: usize) -> usize
    ensures { result ≡ unwrap_or number otherwise }
{
    match number {
        Some(n) => usize::from(n),
        None => otherwise,
    }
}

/// The microseconds of a number of seconds.
fn microseconds_or(seconds: Option<u16>, otherwise: u64) -> u64
    ensures { result ≡ unwrap_or (option_map (λ s. s * 1000000) seconds) otherwise }
{
    match seconds {
        Some(n) => u64::from(n) * 1_000_000,
        None => otherwise,
    }
}

/// Changes what one word says.
fn change(options: &mut ResolverOpts, word: &[u8])
    ensures { options.new ≡ changed_by (word.now ∷ []) options.old }
{
    options.ndots = usize_or(number_behind(b"ndots:", word), options.ndots);
    options.timeout = microseconds_or(number_behind(b"timeout:", word), options.timeout);
    options.attempts = usize_or(number_behind(b"attempts:", word), options.attempts);
    options.edns0 = options.edns0 || word == b"edns0".as_slice();
}

fn change_all(options: &mut ResolverOpts, mut words: Words)
    ensures { options.new ≡ changed_by words.entry options.old }
{
    'words: while let Some(word) = words.next() {
        change(options, word);
    }
}

/// The options that a text sets; each other one is as standard.
pub(crate) fn options_of(alloc: Global, text: &[u8]) -> Result<ResolverOpts, NoMemory>
    ensures { IfOk result (λ options. options ≡ options_of (lines_of text.now)) }
{
    let mut options = ResolverOpts::standard(alloc)?;
    let mut lines = Lines::of(text);
    'lines: while let Some(line) = lines.next() {
        change_all(&mut options, option_words(&line));
    }
    Ok(options)
}
