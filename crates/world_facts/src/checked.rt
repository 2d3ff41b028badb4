//! What the verdict yes says of a world.
ghost use Rattle.std.specs.Prelude.{◌≡◌, ℕ, List};
ghost use Rattle.std.specs.declared.net.IpAddr.{IpAddr};
ghost use Rattle.recursor_types.specs.declared.policy.Policy.{Policy};
ghost use Rattle.zone_rules.specs.declared.world.World.{World};
ghost use Rattle.world_check.specs.Clauses.{clauses, first_failing};
ghost use Rattle.world_check.specs.declared.filters.WorldFilters.{WorldFilters};
ghost use Rattle.world_check.specs.declared.verdict.Verdict.TheVariants.{Yes};
ghost use Rattle.world_facts.specs.Served.{IsServed};
ghost use Rattle.world_facts.specs.Checked.{IsGiven, IsOfScenario};

/// Law: a world of a scenario of which the check says yes serves each recursor well that has these
/// roots and filters, and at least this patience.
pub fn check_world_says_so()
    ensures { (policy : Policy) (world : World) (roots : List IpAddr) (filters : WorldFilters) (patience : ℕ) →
        first_failing 1 (clauses world roots filters patience) ≡ Yes → IsGiven policy roots filters patience → IsOfScenario world
        → IsServed policy world }
{}
