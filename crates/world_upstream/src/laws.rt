//! Laws of the definitions.
ghost use Rattle.std.specs.Prelude.{List, ◌++◌};
ghost use Rattle.dns_core.specs.declared.log.LogEntry.{LogEntry};
ghost use Rattle.world_upstream.specs.Giving.{Gives};
ghost use Rattle.zone_rules.specs.declared.world.World.{World};

/// Law: a world that gives a log gives each front of it.
pub fn fronts_are_given()
    ensures { (w : World) (es more : List LogEntry) → Gives w (es ++ more) → Gives w es }
{}
