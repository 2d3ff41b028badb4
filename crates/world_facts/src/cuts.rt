//! Where a log shows no cut there is none in the world.
ghost use Rattle.std.specs.Prelude.{◌≡◌, true, Contains};
ghost use Rattle.dns_core.specs.Name.{DomainName, same_names};
ghost use Rattle.dns_core.specs.Log.{Log};
ghost use Rattle.recursor_types.specs.declared.policy.Policy.{Policy};
ghost use Rattle.zone_rules.specs.declared.world.World.{World};
ghost use Rattle.zone_rules.specs.declared.world.Zone.{Zone};
ghost use Rattle.world_facts.specs.Told.{TellsLog};
ghost use Rattle.world_facts.specs.Served.{IsServed};
ghost use Rattle.resolution.specs.Walking.{NoCutSeen};

/// Law: where the log that a well served world tells shows no cut at a name, no zone has that apex.
pub fn where_no_cut_is_shown_there_is_none()
    ensures { (policy : Policy) (world : World) (log : Log) (c : DomainName) (zone : Zone) →
        IsServed policy world → TellsLog world log → NoCutSeen policy log c → Contains world.zones zone → same_names zone.apex c ≡ true → ⊥ }
{}
