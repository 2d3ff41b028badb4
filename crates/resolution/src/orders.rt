//! Laws of the small words: being above, being the same, and what classifies a message.
ghost use Rattle.std.specs.Prelude.{◌≡◌, ℕ, true, Some, None, Ok, Err};
ghost use Rattle.dns_core.specs.Name.{DomainName, is_in_zone, same_names};
ghost use Rattle.dns_core.specs.Classifying.{classify_of};
ghost use Rattle.dns_core.specs.declared.message.Message.{Message};
ghost use Rattle.dns_core.specs.declared.message.Query.{Query};
ghost use Rattle.dns_core.specs.declared.log.ToldOutcome.TheVariants as outcome;
ghost use Rattle.resolution.specs.Names.{is_above, same_query};
ghost use Rattle.resolution.specs.Same.{Same};
ghost use Rattle.resolution.specs.Class.{class_of_message, class_of_classified};

/// A name is above itself, and what is above what is above a name is above that.
pub fn above_is_an_order()
    ensures itself { (a : DomainName) → a.fqdn ≡ true → is_above a a ≡ true }
    ensures third { (a b c : DomainName) → is_above a b ≡ true → is_above b c ≡ true → is_above a c ≡ true }

    // Below a fully qualified apex it is what `is_subzone` answers.
    ensures subzone { (z n : DomainName) → z.fqdn ≡ true → is_in_zone z n ≡ is_above z n }
{}

/// A message is the same as itself, and what is the same as a same one is the same.
pub fn same_is_an_order()
    ensures itself { (a : Message) → Same a a }
    ensures third { (a b c : Message) → Same a b → Same b c → Same a c }
{}

/// A message that names the question, in any spelling, is for it what `classify` makes of it.
pub fn a_message_is_what_classify_says()
    ensures { (m : Message) (q : Query) → same_query m.query q ≡ true → class_of_message m q ≡ class_of_classified q (classify_of m) }
{}
