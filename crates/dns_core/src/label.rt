//! Labels of names: bytes, compared and hashed without ASCII case (RFC 4343).
ghost use Rattle.std.specs.Prelude.{◌≡◌, ◌↔◌, ℕ, List, refl, IsTrue};
ghost use Rattle.std.specs.Hash as fed;
ghost use Rattle.std.specs.Cmp.{partial_order_from_own_ties};
ghost use Rattle.std.specs.Cmp.Rules.{comparing, hashing};
ghost use Rattle.std.specs.Cmp.Lexicographic.{pointwise, slice_cmp, lists_per, lists_equiv, lists_total, lists_ties};
ghost use Rattle.std.specs.Hash.{items_Alike};
ghost use Rattle.std.specs.Ordering.{as_partial_cmp};
ghost use Rattle.std.proofs.Common.{rules};
ghost use Rattle.dns_core.specs.Letters.{same_letter, letter_cmp, letter_fed, same_letter_per, same_letter_equiv, letter_cmp_total, letter_ties, letter_alike, letter_po, letters_po};

use std::cmp::Ordering;
use std::hash::{Hash, Hasher};
use std::marker::Model;

/// A byte of a label. Comparisons and hashes go without ASCII case.
#[derive(Clone, Copy, Debug)]
pub struct Letter {
    byte: u8,
}

impl Model for Letter {
    ghost Value = { ℕ };

    ghost view = { λ a. a.byte };

    ghost inverse = { λ n. record { byte = n } };
}

impl Letter {
    pub fn new(byte: u8) -> Letter
        ensures { result ≡ byte }
    {
        Letter { byte }
    }

    pub fn byte(self) -> u8
        ensures { result ≡ self }
    {
        self.byte
    }
}

impl PartialEq for Letter {
    ghost eq = { same_letter };

    ghost laws = { same_letter_per };

    fn eq(&self, other: &Self) -> bool {
        self.byte.eq_ignore_ascii_case(&other.byte)
    }
}

impl Eq for Letter {
    ghost laws = { same_letter_equiv };
}

impl Ord for Letter {
    ghost cmp = { letter_cmp };

    ghost total = { letter_cmp_total };

    ghost matches_partial_cmp = { λ _ _. refl };

    ghost matches_eq = { letter_ties };

    fn cmp(&self, other: &Self) -> Ordering {
        self.byte
            .to_ascii_lowercase()
            .cmp(&other.byte.to_ascii_lowercase())
    }
}

impl PartialOrd for Letter {
    ghost partial_cmp = { as_partial_cmp letter_cmp };

    ghost laws = { letter_po };

    fn partial_cmp(&self, other: &Self) -> Option<Ordering> {
        Some(self.cmp(other))
    }
}

impl Hash for Letter {
    ghost hash_input = { letter_fed };

    ghost respects_eq = { letter_alike.fed };

    fn hash<H: Hasher>(&self, state: &mut H) {
        state.write_u8(self.byte.to_ascii_lowercase());
    }
}

/// A label: bytes compared without ASCII case.
#[derive(Debug)]
pub struct Label {
    letters: Vec<Letter>,
}

impl Drop for Label {
    fn drop(self) {
        let Label { letters: _ } = self;
    }
}

impl Model for Label {
    ghost Value = { List ℕ };

    ghost view = { λ a. a.letters.items };
}

impl Label {
    pub fn letters(&self) -> &[Letter]
        ensures { result.now ≡ self.now }
    {
        self.letters.as_slice()
    }

    pub fn new(letters: Vec<Letter>) -> Label
        ensures { result ≡ letters.items }
    {
        Label { letters }
    }

    /// Whether two labels are equal with case.
    pub fn identical(&self, other: &Label) -> bool
        ensures { IsTrue result ↔ (self.now ≡ other.now) }
    {
        same_letters(self.letters.as_slice(), other.letters.as_slice())
    }
}

fn same_letters(left: &[Letter], right: &[Letter]) -> bool
    ensures { IsTrue result ↔ (left.now ≡ right.now) }
{
    if left.len() != right.len() {
        return false;
    }
    for (i, letter) in left.iter().enumerate() {
        if letter.byte() != right[i].byte() {
            return false;
        }
    }
    true
}

impl PartialEq for Label {
    ghost eq = { pointwise same_letter };

    ghost laws = { lists_per same_letter_per };

    fn eq(&self, other: &Self) -> bool {
        self.letters == other.letters
    }
}

impl Eq for Label {
    ghost laws = { lists_equiv same_letter_equiv };
}

impl Ord for Label {
    ghost cmp = { slice_cmp letter_cmp };

    ghost total = { lists_total letter_cmp_total };

    ghost matches_partial_cmp = { λ _ _. refl };

    ghost matches_eq = { lists_ties letter_cmp letter_ties };

    fn cmp(&self, other: &Self) -> Ordering {
        self.letters.cmp(&other.letters)
    }
}

impl PartialOrd for Label {
    ghost partial_cmp = { as_partial_cmp (slice_cmp letter_cmp) };

    ghost laws = { letters_po };

    fn partial_cmp(&self, other: &Self) -> Option<Ordering> {
        Some(self.cmp(other))
    }
}

impl Hash for Label {
    ghost hash_input = { fed.slice letter_fed };

    ghost respects_eq = { (items_Alike letter_alike).fed };

    fn hash<H: Hasher>(&self, state: &mut H) {
        self.letters.hash(state);
    }
}
