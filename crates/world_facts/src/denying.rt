//! A denial that counts is the world's.
ghost use Rattle.std.specs.Prelude.{◌≡◌, ◌==◌, ℕ, false, Some, None};
ghost use Rattle.dns_core.specs.Name.{DomainName};
ghost use Rattle.dns_core.specs.Log.{Log};
ghost use Rattle.dns_core.specs.declared.message.Query.{Query};
ghost use Rattle.dns_core.specs.declared.log.ToldOutcome.{ToldOutcome};
ghost use Rattle.dns_core.specs.declared.net_error.NoRecords.{NoRecords};
ghost use Rattle.recursor_types.specs.declared.policy.Policy.{Policy};
ghost use Rattle.resolution.specs.Verdict.{verdict};
ghost use Rattle.resolution.specs.Serving.{Heard};
ghost use Rattle.resolution.specs.declared.verdict.Verdict.TheVariants.{Neg};
ghost use Rattle.zone_rules.specs.declared.world.World.{World};
ghost use Rattle.world_facts.specs.Told.{TellsLog};
ghost use Rattle.world_facts.specs.Served.{IsServed};
ghost use Rattle.world_facts.specs.Denials.{DeniesAsWorld};

/// Law: a denial that a server of a zone tells, and that names no other servers, is the world's. No
/// walk to the zone is needed.
pub fn a_denial_is_the_worlds()
    ensures { (policy : Policy) (world : World) (log : Log) (i moment : ℕ) (q : Query) (told : ToldOutcome) (zone : DomainName) (n : NoRecords) →
        IsServed policy world → TellsLog world log → q.query_class.code ≡ 1 → (q.query_type.code == 255) ≡ false
        → Heard policy log i q told moment zone → verdict policy told q zone ≡ Some (Neg n) → n.ns ≡ None → DeniesAsWorld world q n }
{}
