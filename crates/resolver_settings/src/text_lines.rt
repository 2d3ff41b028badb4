//! The lines of a text, and the words of a line.
ghost use Rattle.std.specs.Prelude.{◌≡◌, ◌<◌, ◌∷◌, [], ◌==◌, length, option_map, position, MatchOption, IfSome};
ghost use Rattle.std.specs.List.{slice_split, list_all, before_first};
ghost use Rattle.resolver_settings.specs.TextLines.{begins_comment, is_blank, is_plain, pieces_left, words_left, words_of_line, lines_of};

use std::marker::Model;

fn begins_comment(b: u8) -> bool
    ensures { result ≡ begins_comment b }
{
    b == b'#' || b == b';'
}

fn is_blank(b: u8) -> bool
    ensures { result ≡ is_blank b }
{
    b == b' ' || b == b'\t' || b == b'\r'
}

fn is_plain(b: u8) -> bool
    ensures { result ≡ is_plain b }
{
    is_blank(b) || (b > 0x20 && b < 0x7f)
}

fn comment_place(line: &[u8]) -> Option<usize>
    ensures { result ≡ position begins_comment line.now }
{
    line.iter().position(|b| begins_comment(*b))
}

fn blank_place(text: &[u8]) -> Option<usize>
    ensures { result ≡ position is_blank text.now }
{
    text.iter().position(|b| is_blank(*b))
}

fn end_of_line(text: &[u8]) -> Option<usize>
    ensures { result ≡ position (λ b. b == 10) text.now }
{
    text.iter().position(|b| *b == b'\n')
}

fn are_plain(bytes: &[u8]) -> bool
    ensures { result ≡ list_all is_plain bytes.now }
{
    bytes.iter().all(|b| is_plain(*b))
}

/// What stands before the comment of a line.
fn content(line: &[u8]) -> &[u8]
    ensures { result.now ≡ before_first begins_comment line.now }
{
    match comment_place(line) {
        None => line,
        Some(place) => &line[..place],
    }
}

/// What stands before the first blank, and what follows that blank where there is one.
fn first_piece(text: &[u8]) -> (&[u8], Option<&[u8]>)
    ensures parts { slice_split is_blank text.now ≡ result.0.now ∷ pieces_left is_blank (option_map (λ r. r.now) result.1) }
    ensures shorter { IfSome result.1 (λ r. length r.now < length text.now) }
{
    match blank_place(text) {
        None => (text, None),
        Some(place) => (&text[..place], Some(&text[place + 1..])),
    }
}

/// What stands before the first line feed, and what follows it where there is one.
fn first_line(text: &[u8]) -> (&[u8], Option<&[u8]>)
    ensures { slice_split (λ b. b == 10) text.now ≡ result.0.now ∷ pieces_left (λ b. b == 10) (option_map (λ r. r.now) result.1) }
{
    match end_of_line(text) {
        None => (text, None),
        Some(place) => (&text[..place], Some(&text[place + 1..])),
    }
}

/// The first word, and what follows the blank behind it where there is one.
fn first_word(text: &[u8]) -> Option<(&[u8], Option<&[u8]>)>
    ensures { MatchOption result (words_left (Some text.now) ≡ []) (λ w. words_left (Some text.now) ≡ w.0.now ∷ words_left (option_map (λ r. r.now) w.1)) }
{
    let mut left = Some(text);
    'pieces: while let Some(bytes) = left {
        let (piece, rest) = first_piece(bytes);
        if !piece.is_empty() {
            return Some((piece, rest));
        }
        left = rest;
    }
    None
}

/// The words of a text, with spaces, tabs and carriage returns between them, from the next one on;
/// clauses see their list.
#[derive(Drop)]
pub(crate) struct Words<'a> {
    rest: Option<&'a [u8]>,
}

impl<'a> Model for Words<'a> {
    ghost use Rattle.std.specs.Prelude.{List, ℕ, option_map};
    ghost use Rattle.resolver_settings.specs.TextLines.{words_left};

    ghost Value = { List (List ℕ) };

    ghost view = { λ w. words_left (option_map (λ r. r.now) w.rest) };
}

impl<'a> Words<'a> {
    pub(crate) fn none() -> Self
        ensures { result ≡ [] }
    {
        Words { rest: None }
    }

    fn of(text: &'a [u8]) -> Self
        ensures { result ≡ words_left (Some text.now) }
    {
        Words { rest: Some(text) }
    }

    /// The words of a line before its comment. A line with a foreign byte there has none.
    fn of_line(line: &'a [u8]) -> Self
        ensures { result ≡ words_of_line line.now }
    {
        let content = content(line);
        if are_plain(content) {
            Words::of(content)
        } else {
            Words::none()
        }
    }

    /// The same words.
    pub(crate) fn again(&self) -> Self
        ensures { result ≡ self.now }
    {
        Words { rest: self.rest }
    }

    /// Takes the next word; without one nothing changes.
    pub(crate) fn next(&mut self) -> Option<&'a [u8]>
        ensures { MatchOption result ((self.old ≡ []) × (self.new ≡ [])) (λ w. self.old ≡ w.now ∷ self.new) }
    {
        match first_word(self.rest?) {
            None => {
                self.rest = None;
                None
            }
            Some((word, rest)) => {
                self.rest = rest;
                Some(word)
            }
        }
    }
}

/// The lines of a text from the next one on; clauses see the list of their words.
#[derive(Drop)]
pub(crate) struct Lines<'a> {
    rest: Option<&'a [u8]>,
}

impl<'a> Model for Lines<'a> {
    ghost use Rattle.std.specs.Prelude.{List, ℕ, option_map};
    ghost use Rattle.resolver_settings.specs.TextLines.{lines_left};

    ghost Value = { List (List (List ℕ)) };

    ghost view = { λ l. lines_left (option_map (λ r. r.now) l.rest) };
}

impl<'a> Lines<'a> {
    pub(crate) fn of(text: &'a [u8]) -> Self
        ensures { result ≡ lines_of text.now }
    {
        Lines { rest: Some(text) }
    }

    /// Takes the next line; without one nothing changes.
    pub(crate) fn next(&mut self) -> Option<Words<'a>>
        ensures { MatchOption result ((self.old ≡ []) × (self.new ≡ [])) (λ line. self.old ≡ line ∷ self.new) }
    {
        let (line, rest) = first_line(self.rest?);
        self.rest = rest;
        Some(Words::of_line(line))
    }
}
