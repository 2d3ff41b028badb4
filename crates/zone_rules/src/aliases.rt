//! The aliases of a zone, and the names that were met on their way.
ghost use Rattle.std.specs.Prelude.{◌≡◌, IfSome, IfNone, Some, None};
ghost use Rattle.std.specs.List.{list_any};
ghost use Rattle.dns_core.specs.Name.{same_names};
ghost use Rattle.resolution.specs.Records.{cname_target};
ghost use Rattle.zone_rules.specs.Aliases.{next_alias};

use crate::choosing::{Alias, alias_in};
use crate::tree::is_above;
use crate::world::Zone;
use dns_core::Name;

/// Whether the name is one of those that were met.
pub fn is_met(met: &[Name], name: &Name) -> bool
    ensures { result ≡ list_any (same_names name.now) met.now }
{
    met.iter().any(|n| *name == *n)
}

/// The alias of the name, unless that lies outside the zone or was met.
pub fn next_alias<'w>(zone: &'w Zone, met: &[Name], name: &Name) -> Option<Alias<'w>>
    ensures some { IfSome result (λ alias. next_alias zone.now met.now name.now ≡ Some alias.record.now) }
    ensures leads { IfSome result (λ alias. cname_target alias.record.now ≡ Some alias.target.now) }
    ensures none { IfNone result (next_alias zone.now met.now name.now ≡ None) }
{
    if is_above(&zone.apex, name) && !is_met(met, name) {
        alias_in(zone, name)
    } else {
        None
    }
}
