//! No address is invented, no zone is served unasked, and nothing counts outside a zone.
ghost use Rattle.std.specs.Prelude.{◌≡◌, ℕ, ◌⊎◌, true, false, Some, All, Contains};
ghost use Rattle.std.specs.declared.net.ip_addr.IpAddr.{IpAddr};
ghost use Rattle.dns_core.specs.Name.{DomainName};
ghost use Rattle.dns_core.specs.Log.{Log};
ghost use Rattle.dns_core.specs.declared.message.Query.{Query};
ghost use Rattle.dns_core.specs.declared.message.Message.{Message};
ghost use Rattle.dns_core.specs.declared.log.ToldOutcome.{ToldOutcome};
ghost use Rattle.resolver_settings.specs.Access.{denies};
ghost use Rattle.resolution.specs.Names.{root, question};
ghost use Rattle.resolution.specs.Records.{records};
ghost use Rattle.recursor_types.specs.declared.policy.Policy.{Policy};
ghost use Rattle.resolution.specs.Verdict.{verdict, is_in_bailiwick, holds_denied};
ghost use Rattle.resolution.specs.Telling.{IsTold, WasAsked};
ghost use Rattle.resolution.specs.Serving.{Serves};
ghost use Rattle.resolution.specs.declared.verdict.Verdict.TheVariants.{Pos};

/// An address that serves a zone is a root, or a message that was told holds it.
pub fn no_address_is_invented()
    ensures { (policy : Policy) (log : Log) (n : ℕ) (ip : IpAddr) (z : DomainName) →
        Serves policy log n ip z → Contains policy.roots ip ⊎ IsTold log ip }
{}

/// A zone that is served is the root, by its roots, or its NS records were asked for.
pub fn no_zone_is_served_unasked()
    ensures { (policy : Policy) (log : Log) (n : ℕ) (ip : IpAddr) (z : DomainName) →
        Serves policy log n ip z → ((z ≡ root) × Contains policy.roots ip) ⊎ WasAsked log (question z 2) }
{}

/// What counts of an answer lies in the zone and holds no denied address.
pub fn nothing_counts_outside_a_zone()
    ensures inside { (policy : Policy) (o : ToldOutcome) (q : Query) (z : DomainName) (k : Message) →
        verdict policy o q z ≡ Some (Pos k) → All (λ r. is_in_bailiwick z r ≡ true) (records k) }
    ensures allowed { (policy : Policy) (o : ToldOutcome) (q : Query) (z : DomainName) (k : Message) →
        verdict policy o q z ≡ Some (Pos k) → All (λ r. holds_denied (denies policy.answer_filter) r ≡ false) (records k) }
{}
