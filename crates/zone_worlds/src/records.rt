//! The records of a world by their names.
ghost use Rattle.std.specs.Prelude.{◌≡◌, ◌++◌, ◌∷◌, [], false, List, IfOk, OnOk, if◌then◌else◌};
ghost use Rattle.std.specs.HashMap.{get};
ghost use Rattle.dns_core.specs.Name.{DomainName, same_names};
ghost use Rattle.dns_core.specs.declared.record.Record.{Record};
ghost use Rattle.zone_worlds.specs.Index.{all_records, held, FindsRecords};

use dns_core::{Items, Name, NoMemory, Record, Records, TryClone};
use std::alloc::Global;
use std::collections::HashMap;
use zone_rules::Zone;

/// Takes out the records of a name.
fn take_held(kept: &mut HashMap<Name, Records>, alloc: Global, name: &Name) -> Records
    ensures held { result ≡ held kept.old name.now }
    ensures others { (n : DomainName) → same_names name.now n ≡ false → get same_names kept.new n ≡ get same_names kept.old n }
{
    match kept.remove(name) {
        Some(records) => records,
        None => Items::empty(alloc),
    }
}

/// Adds a record under its name, after those that stand there.
fn add_record(
    kept: &mut HashMap<Name, Records>,
    alloc: Global,
    name: Name,
    r: Record,
) -> Result<(), NoMemory>
    ensures { OnOk result ((n : DomainName) → held kept.new n ≡ (if same_names name n then held kept.old n ++ r ∷ [] else held kept.old n)) }
{
    let mut records = take_held(kept, alloc, &name);
    records.push(r)?;
    kept.insert(name, records)?;
    Ok(())
}

/// Adds the records of a zone, after all that were seen.
fn add_zone(kept: &mut HashMap<Name, Records>, alloc: Global, zone: &Zone) -> Result<(), NoMemory>
    ensures { OnOk result ((seen : List Record) → FindsRecords seen kept.old → FindsRecords (seen ++ zone.now.records) kept.new) }
{
    for r in zone.records.items() {
        let name = r.name.try_clone(alloc)?;
        let copy = r.try_clone(alloc)?;
        add_record(kept, alloc, name, copy)?;
    }
    Ok(())
}

/// The records of all zones by their names.
pub(crate) fn held_by(alloc: Global, zones: &[Zone]) -> Result<HashMap<Name, Records>, NoMemory>
    ensures { IfOk result (FindsRecords (all_records zones.now)) }
{
    let mut kept = HashMap::new(alloc);
    for zone in zones {
        add_zone(&mut kept, alloc, zone)?;
    }
    Ok(kept)
}
