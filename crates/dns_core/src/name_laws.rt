//! Laws of names: of their text, of the zones that they lie in, and of their equality.
ghost use Rattle.std.specs.Prelude.{◌≡◌, ◌≢◌, ◌↔◌, ℕ, Bool, true, false, not, List, Ok, IsTrue};
ghost use Rattle.std.specs.declared.cmp.Ordering.TheVariants.{Equal};
ghost use Rattle.dns_core.specs.Name.{DomainName, same_names, names_cmp, names_fed, is_empty_name, is_in_zone};
ghost use Rattle.dns_core.specs.NameText.{name_of, text_of};

/// What is read, strictly or relaxed, is written back byte by byte, and so it is read again as the
/// same name.
pub fn a_read_name_keeps_its_text()
    ensures written { (strict : Bool) (text : List ℕ) (n : DomainName) → name_of strict text ≡ Ok n → text_of n ≡ text }
    ensures again { (strict : Bool) (text : List ℕ) (n : DomainName) → name_of strict text ≡ Ok n → name_of strict (text_of n) ≡ Ok n }
{}

/// What `is_subzone` answers is an order of names up to case, which relates no fully qualified name
/// to one that is not.
pub fn lying_in_a_zone_is_an_order()
    ensures itself { (n : DomainName) → n.fqdn ≡ true → is_in_zone n n ≡ true }
    ensures but_the_empty { (n : DomainName) → is_in_zone n n ≡ not (is_empty_name n) }
    ensures third { (a b c : DomainName) → is_in_zone a b ≡ true → is_in_zone b c ≡ true → is_in_zone a c ≡ true }
    ensures mutual { (a b : DomainName) → is_in_zone a b ≡ true → is_in_zone b a ≡ true → same_names a b ≡ true }
    ensures apart { (a b : DomainName) → a.fqdn ≢ b.fqdn → is_in_zone a b ≡ false }
{}

/// Two names are equal exactly where the order does not tell them apart, and then they have one
/// hash: what serves as a key of a map in order serves as one of a map by hash.
pub fn equality_order_and_hash_of_names_agree()
    ensures order { (a b : DomainName) → IsTrue (same_names a b) ↔ (names_cmp a b ≡ Equal) }
    ensures hash { (a b : DomainName) → same_names a b ≡ true → names_fed a ≡ names_fed b }
{}
