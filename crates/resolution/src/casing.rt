//! Names go without ASCII case (RFC 4343): what is said of a question or of a zone is said of it in
//! any spelling.
ghost use Rattle.std.specs.Prelude.{◌≡◌, ℕ, true};
ghost use Rattle.std.specs.declared.net.ip_addr.IpAddr.{IpAddr};
ghost use Rattle.dns_core.specs.Name.{DomainName, same_names};
ghost use Rattle.dns_core.specs.Log.{Log};
ghost use Rattle.dns_core.specs.declared.message.Query.{Query};
ghost use Rattle.dns_core.specs.declared.log.ToldOutcome.{ToldOutcome};
ghost use Rattle.resolution.specs.Names.{same_query};
ghost use Rattle.resolution.specs.Class.{class_of};
ghost use Rattle.recursor_types.specs.declared.policy.Policy.{Policy};
ghost use Rattle.resolution.specs.Verdict.{verdict};
ghost use Rattle.resolution.specs.Serving.{Serves};
ghost use Rattle.resolution.specs.Answering.{Base};
ghost use Rattle.resolution.specs.declared.verdict.Verdict.{Verdict};

/// What an outcome is and counts for does not depend on the spelling of the question.
pub fn case_of_a_question_is_ignored()
    ensures class { (q p : Query) (o : ToldOutcome) → same_query q p ≡ true → class_of o q ≡ class_of o p }
    ensures verdict { (q p : Query) (policy : Policy) (o : ToldOutcome) (z : DomainName) →
        same_query q p ≡ true → verdict policy o q z ≡ verdict policy o p z }
    ensures base { (q p : Query) (policy : Policy) (log : Log) (asked_at i : ℕ) (z : DomainName) (v : Verdict) →
        same_query q p ≡ true → Base policy log asked_at q i z v → Base policy log asked_at p i z v }
{}

/// Nor does who serves a zone, and what counts in it, depend on the spelling of the zone.
pub fn case_of_a_zone_is_ignored()
    ensures verdict { (c d : DomainName) (policy : Policy) (o : ToldOutcome) (q : Query) →
        same_names c d ≡ true → verdict policy o q c ≡ verdict policy o q d }
    ensures serves { (c d : DomainName) (policy : Policy) (log : Log) (n : ℕ) (ip : IpAddr) →
        same_names c d ≡ true → Serves policy log n ip c → Serves policy log n ip d }
    ensures base { (c d : DomainName) (policy : Policy) (log : Log) (asked_at : ℕ) (q : Query) (i : ℕ) (v : Verdict) →
        same_names c d ≡ true → Base policy log asked_at q i c v → Base policy log asked_at q i d v }
{}
