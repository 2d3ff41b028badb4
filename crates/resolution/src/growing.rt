//! What a log says it says for good: entries with greater numbers take nothing from it, nor does
//! less patience.
ghost use Rattle.std.specs.Prelude.{ℕ, List, Bool, ◌≤◌};
ghost use Rattle.std.specs.declared.net.ip_addr.IpAddr.{IpAddr};
ghost use Rattle.dns_core.specs.Name.{DomainName};
ghost use Rattle.dns_core.specs.Log.{Log, Extends};
ghost use Rattle.dns_core.specs.declared.message.Query.{Query};
ghost use Rattle.dns_core.specs.declared.message.Message.{Message};
ghost use Rattle.recursor_types.specs.declared.policy.Policy.{Policy};
ghost use Rattle.recursor_types.specs.Policy.{with_patience};
ghost use Rattle.resolution.specs.Telling.{AgreeBelow};
ghost use Rattle.resolution.specs.Serving.{Serves};
ghost use Rattle.resolution.specs.Answering.{Base, Answer};
ghost use Rattle.resolution.specs.declared.verdict.Verdict.{Verdict};

/// An address serves a zone, an entry answers a question and a reply rests on entries by a longer
/// log too; a reply also where less patience is given, by which a name is shown to be no cut.
pub fn a_longer_log_keeps_answers()
    ensures serves { (policy : Policy) (old new : Log) (n : ℕ) (ip : IpAddr) (z : DomainName) →
        Extends old new → Serves policy old n ip z → Serves policy new n ip z }
    ensures base { (policy : Policy) (old new : Log) (asked_at : ℕ) (q : Query) (i : ℕ) (z : DomainName) (v : Verdict) →
        Extends old new → Base policy old asked_at q i z v → Base policy new asked_at q i z v }
    ensures answer { (policy : Policy) (less : ℕ) (old new : Log) (asked_at : ℕ) (q : Query) (dnssec : Bool) (g : List ℕ) (r : Message) →
        less ≤ policy.patience → Extends old new → Answer policy old asked_at q dnssec g r → Answer (with_patience less policy) new asked_at q dnssec g r }
{}

/// Neither who serves a zone nor what an entry answers reads how patient the resolver is.
pub fn patience_is_not_read()
    ensures serves { (policy : Policy) (patience : ℕ) (log : Log) (n : ℕ) (ip : IpAddr) (z : DomainName) →
        Serves policy log n ip z → Serves (with_patience patience policy) log n ip z }
    ensures base { (policy : Policy) (patience : ℕ) (log : Log) (asked_at : ℕ) (q : Query) (i : ℕ) (z : DomainName) (v : Verdict) →
        Base policy log asked_at q i z v → Base (with_patience patience policy) log asked_at q i z v }
{}

/// Who serves a zone at a number is read from the entries below it alone, and at a later number it
/// serves still.
pub fn only_earlier_entries_are_read()
    ensures below { (policy : Policy) (a b : Log) (n : ℕ) (ip : IpAddr) (z : DomainName) →
        AgreeBelow n a b → Serves policy a n ip z → Serves policy b n ip z }
    ensures later { (policy : Policy) (log : Log) (n m : ℕ) (ip : IpAddr) (z : DomainName) →
        n ≤ m → Serves policy log n ip z → Serves policy log m ip z }
{}
