//! Where the records of a world lie, found by look-ups.
ghost use Rattle.std.specs.Prelude.{◌≡◌, ◌&&◌, IfOk, IsTrue};
ghost use Rattle.std.specs.List.{list_all};
ghost use Rattle.resolution.specs.Names.{is_above};
ghost use Rattle.world_layout.specs.Layout.{left_name, is_left_by, is_in_place, has_authority, is_laid_out};

use dns_core::{Name, NoMemory, Record, TryClone};
use std::alloc::Global;
use world_layout::{has_authority, is_ds_at, is_left_by_all, is_root};
use zone_worlds::{IndexedWorld, Zone, is_above};

/// Where the way down to a record ends: above the name of a DS record.
fn left_name(alloc: Global, r: &Record) -> Result<Name, NoMemory>
    ensures { IfOk result (λ name. name ≡ left_name r.now) }
{
    if r.record_type.code == 43 {
        r.name.base_name(alloc)
    } else {
        r.name.try_clone(alloc)
    }
}

/// Whether every zone below leaves the record to this one. Where the way down to it meets no zone none
/// has it; else the zones are asked.
fn is_left(alloc: Global, world: &IndexedWorld, zone: &Zone, r: &Record) -> Result<bool, NoMemory>
    requires { IsTrue r.now.name.fqdn }
    ensures { IfOk result (λ left. left ≡ list_all (is_left_by zone.now r.now) world.now.zones) }
{
    let name = left_name(alloc, r)?;
    let apex = zone.apex.labels().len();
    let cut = world.first_cut(alloc, apex, &name)?;
    match cut {
        None => Ok(true),
        Some(_) => Ok(is_left_by_all(zone, r, world.world().zones.items())),
    }
}

fn is_in_place(
    alloc: Global,
    world: &IndexedWorld,
    zone: &Zone,
    r: &Record,
) -> Result<bool, NoMemory>
    ensures { IfOk result (λ holds. holds ≡ is_in_place world.now zone.now r.now) }
{
    if !r.name.is_fqdn() || !is_above(&zone.apex, &r.name) {
        return Ok(false);
    }
    let left = is_left(alloc, world, zone, r)?;
    Ok(left && (is_root(&zone.apex) || !is_ds_at(r, &zone.apex)))
}

fn are_in_place(alloc: Global, world: &IndexedWorld, zone: &Zone) -> Result<bool, NoMemory>
    ensures { IfOk result (λ hold. hold ≡ list_all (is_in_place world.now zone.now) zone.now.records) }
{
    for r in zone.records.items() {
        if !is_in_place(alloc, world, zone, r)? {
            return Ok(false);
        }
    }
    Ok(true)
}

fn is_zone_laid_out(alloc: Global, world: &IndexedWorld, zone: &Zone) -> Result<bool, NoMemory>
    ensures { IfOk result (λ holds. holds ≡ (list_all (is_in_place world.now zone.now) zone.now.records && has_authority zone.now)) }
{
    let in_place = are_in_place(alloc, world, zone)?;
    Ok(in_place && has_authority(zone))
}

/// Whether each zone has the records that are its own, one SOA record and an NS record.
pub(crate) fn is_laid_out(alloc: Global, world: &IndexedWorld) -> Result<bool, NoMemory>
    ensures { IfOk result (λ holds. holds ≡ is_laid_out world.now) }
{
    for zone in world.world().zones.items() {
        if !is_zone_laid_out(alloc, world, zone)? {
            return Ok(false);
        }
    }
    Ok(true)
}
