//! Where the records of a world lie.
ghost use Rattle.std.specs.Prelude.{◌≡◌, ◌&&◌, length, filter};
ghost use Rattle.std.specs.List.{list_any, list_all};
ghost use Rattle.dns_core.specs.Name.{same_names};
ghost use Rattle.dns_core.specs.Classifying.{is_soa, is_ns};
ghost use Rattle.resolution.specs.Names.{is_root};
ghost use Rattle.world_layout.specs.Layout.{is_below, is_ds_at, is_left_by, is_in_place, has_authority, is_laid_out};

use dns_core::{Name, Record};
use zone_worlds::{World, Zone, is_above, is_ns_of, is_soa_of};

/// Whether a name is that of the root.
pub fn is_root(name: &Name) -> bool
    ensures { result ≡ is_root name.now }
{
    name.is_fqdn() && name.labels().is_empty()
}

fn is_below(zone: &Zone, deeper: &Zone) -> bool
    ensures { result ≡ is_below zone.now deeper.now }
{
    is_above(&zone.apex, &deeper.apex) && !(zone.apex == deeper.apex)
}

/// Whether a record is a DS record at the apex.
pub fn is_ds_at(r: &Record, apex: &Name) -> bool
    ensures { result ≡ is_ds_at apex.now r.now }
{
    r.record_type.code == 43 && r.name == *apex
}

fn is_left_by(zone: &Zone, r: &Record, deeper: &Zone) -> bool
    ensures { result ≡ is_left_by zone.now r.now deeper.now }
{
    !(is_below(zone, deeper) && is_above(&deeper.apex, &r.name)) || is_ds_at(r, &deeper.apex)
}

/// Whether the record lies in no deeper zone, or is a DS record at its apex.
pub fn is_left_by_all(zone: &Zone, r: &Record, zones: &[Zone]) -> bool
    ensures { result ≡ list_all (is_left_by zone.now r.now) zones.now }
{
    zones.iter().all(|deeper| is_left_by(zone, r, deeper))
}

fn is_in_place(world: &World, zone: &Zone, r: &Record) -> bool
    ensures { result ≡ is_in_place world.now zone.now r.now }
{
    is_above(&zone.apex, &r.name)
        && is_left_by_all(zone, r, world.zones.items())
        && (is_root(&zone.apex) || !is_ds_at(r, &zone.apex))
}

fn are_in_place(world: &World, zone: &Zone) -> bool
    ensures { result ≡ list_all (is_in_place world.now zone.now) zone.now.records }
{
    zone.records
        .items()
        .iter()
        .all(|r| is_in_place(world, zone, r))
}

fn count_soa(zone: &Zone) -> usize
    ensures { result ≡ length (filter (λ r. is_soa r && same_names r.name zone.now.apex) zone.now.records) }
{
    zone.records
        .items()
        .iter()
        .filter(|r| is_soa_of(r, &zone.apex))
        .count()
}

fn has_ns(zone: &Zone) -> bool
    ensures { result ≡ list_any (λ r. is_ns r && same_names r.name zone.now.apex) zone.now.records }
{
    zone.records.items().iter().any(|r| is_ns_of(r, &zone.apex))
}

/// Whether the apex owns one SOA record and an NS record.
pub fn has_authority(zone: &Zone) -> bool
    ensures { result ≡ has_authority zone.now }
{
    count_soa(zone) == 1 && has_ns(zone)
}

fn is_zone_laid_out(world: &World, zone: &Zone) -> bool
    ensures { result ≡ (list_all (is_in_place world.now zone.now) zone.now.records && has_authority zone.now) }
{
    are_in_place(world, zone) && has_authority(zone)
}

/// Whether each zone has the records that are its own, one SOA record and an NS record.
pub fn is_laid_out(world: &World) -> bool
    ensures { result ≡ is_laid_out world.now }
{
    world
        .zones
        .items()
        .iter()
        .all(|zone| is_zone_laid_out(world, zone))
}
