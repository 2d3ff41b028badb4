//! What a well served world tells counts whole.
ghost use Rattle.std.specs.Prelude.{◌≡◌, ℕ, Some};
ghost use Rattle.dns_core.specs.Name.{DomainName};
ghost use Rattle.dns_core.specs.Log.{Log};
ghost use Rattle.dns_core.specs.declared.message.Query.{Query};
ghost use Rattle.dns_core.specs.declared.log.ToldOutcome.{ToldOutcome};
ghost use Rattle.recursor_types.specs.declared.policy.Policy.{Policy};
ghost use Rattle.resolution.specs.Verdict.{verdict};
ghost use Rattle.resolution.specs.Serving.{Heard};
ghost use Rattle.resolution.specs.declared.verdict.Verdict.{Verdict};
ghost use Rattle.zone_rules.specs.declared.world.World.{World};
ghost use Rattle.world_facts.specs.Told.{TellsLog};
ghost use Rattle.world_facts.specs.Served.{IsServed};
ghost use Rattle.world_facts.specs.Counting.{CountsWhole};

/// Law: what a server of a zone tells counts as it is, or as the denial that it is; the recursor makes
/// no denial of it.
pub fn what_a_world_tells_counts_whole()
    ensures { (policy : Policy) (world : World) (log : Log) (i moment : ℕ) (q : Query) (told : ToldOutcome) (zone : DomainName) (counted : Verdict) →
        IsServed policy world → TellsLog world log → q.query_class.code ≡ 1 → Heard policy log i q told moment zone
        → verdict policy told q zone ≡ Some counted → CountsWhole q zone told counted }
{}
