//! The names of a world.
ghost use Rattle.std.specs.Prelude.{◌≡◌, ◌&&◌, ◌==◌, not, length, filter, nat_le};
ghost use Rattle.std.specs.List.{list_any, list_all};
ghost use Rattle.dns_core.specs.Name.{same_names};
ghost use Rattle.zone_rules.specs.Choosing.{is_alias};
ghost use Rattle.world_layout.specs.Sight.{world_of};
ghost use Rattle.world_layout.specs.Naming.{is_aliased, owns_one, is_star, has_star, is_soundly_held, is_soundly_named, has_sound_names};

use crate::sight::Sight;
use dns_core::{Label, Letter, Name, RData, Record};
use zone_worlds::{IndexedWorld, World, Zone, is_alias};

// ---- aliases

fn has_alias(records: &[Record], name: &Name) -> bool
    ensures { result ≡ list_any (is_alias name.now) records.now }
{
    records.iter().any(|r| is_alias(r, name))
}

/// Whether a zone has an alias of the name.
fn is_aliased_in(world: &World, name: &Name) -> bool
    ensures { result ≡ is_aliased world.now name.now }
{
    world
        .zones
        .items()
        .iter()
        .any(|zone| has_alias(zone.records.items(), name))
}

/// Whether the records of the name have an alias.
fn is_aliased_by(world: &IndexedWorld, name: &Name) -> bool
    ensures { result ≡ is_aliased world.now name.now }
{
    has_alias(world.named(name), name)
}

fn is_aliased(world: Sight, name: &Name) -> bool
    ensures { result ≡ is_aliased (world_of world.entry) name.now }
{
    match world {
        Sight::Plain(world) => is_aliased_in(world, name),
        Sight::Indexed(world) => is_aliased_by(world, name),
    }
}

fn is_owned_by(r: &Record, name: &Name) -> bool
    ensures { result ≡ same_names r.now.name name.now }
{
    r.name == *name
}

fn owns(zone: &Zone, name: &Name) -> bool
    ensures { result ≡ list_any (λ r. same_names r.name name.now) zone.now.records }
{
    zone.records.items().iter().any(|r| is_owned_by(r, name))
}

fn count_owned(zone: &Zone, name: &Name) -> usize
    ensures { result ≡ length (filter (λ r. same_names r.name name.now) zone.now.records) }
{
    zone.records
        .items()
        .iter()
        .filter(|r| is_owned_by(r, name))
        .count()
}

fn owns_at_most_one(zone: &Zone, name: &Name) -> bool
    ensures { result ≡ nat_le (length (filter (λ r. same_names r.name name.now) zone.now.records)) 1 }
{
    count_owned(zone, name) <= 1
}

fn count_owners(world: &World, name: &Name) -> usize
    ensures { result ≡ length (filter (λ zone. list_any (λ r. same_names r.name name.now) zone.records) world.now.zones) }
{
    world
        .zones
        .items()
        .iter()
        .filter(|zone| owns(zone, name))
        .count()
}

fn none_owns_two(world: &World, name: &Name) -> bool
    ensures { result ≡ list_all (λ zone. nat_le (length (filter (λ r. same_names r.name name.now) zone.records)) 1) world.now.zones }
{
    world
        .zones
        .items()
        .iter()
        .all(|zone| owns_at_most_one(zone, name))
}

fn owns_one_in(world: &World, name: &Name) -> bool
    ensures { result ≡ owns_one world.now name.now }
{
    count_owners(world, name) == 1 && none_owns_two(world, name)
}

fn is_single(records: &[Record]) -> bool
    ensures { result ≡ (length records.now == 1) }
{
    records.len() == 1
}

/// Where one record has the name it is the one; else the zones are asked.
fn owns_one_by(world: &IndexedWorld, name: &Name) -> bool
    ensures { result ≡ owns_one world.now name.now }
{
    let records = world.named(name);
    if is_single(records) {
        return true;
    }
    owns_one_in(world.world(), name)
}

fn owns_one(world: Sight, name: &Name) -> bool
    ensures { result ≡ owns_one (world_of world.entry) name.now }
{
    match world {
        Sight::Plain(world) => owns_one_in(world, name),
        Sight::Indexed(world) => owns_one_by(world, name),
    }
}

// ---- wildcards

fn is_star(label: &Label) -> bool
    ensures { result ≡ is_star label.now }
{
    match label.letters() {
        [letter] => letter.byte() == 42,
        _ => false,
    }
}

fn has_star(name: &Name) -> bool
    ensures { result ≡ has_star name.now }
{
    name.labels().iter().any(|label| is_star(label))
}

// ---- all names

fn is_soundly_held(world: Sight, owner: &Name, rdata: &RData) -> bool
    ensures { result ≡ is_soundly_held (world_of world.entry) owner.now rdata.now }
{
    match rdata {
        RData::NS(target) => !is_aliased(world, target) && !has_star(target),
        RData::CNAME(target) => owns_one(world, owner) && !has_star(target),
        RData::SOA(soa) => !has_star(&soa.get().mname) && !has_star(&soa.get().rname),
        _ => true,
    }
}

fn is_soundly_named(world: Sight, r: &Record) -> bool
    ensures { result ≡ is_soundly_named (world_of world.entry) r.now }
{
    !has_star(&r.name) && is_soundly_held(world, &r.name, &r.rdata)
}

fn are_soundly_named(world: Sight, zone: &Zone) -> bool
    ensures { result ≡ list_all (is_soundly_named (world_of world.entry)) zone.now.records }
{
    zone.records
        .items()
        .iter()
        .all(|r| is_soundly_named(world, r))
}

fn is_zone_soundly_named(world: Sight, zone: &Zone) -> bool
    ensures { result ≡ (not (has_star zone.now.apex) && list_all (is_soundly_named (world_of world.entry)) zone.now.records) }
{
    !has_star(&zone.apex) && are_soundly_named(world, zone)
}

/// Whether no server is an alias, no alias owns another record, and no label is a wildcard.
pub fn has_sound_names(world: Sight) -> bool
    ensures { result ≡ has_sound_names (world_of world.entry) }
{
    world
        .world()
        .zones
        .items()
        .iter()
        .all(|zone| is_zone_soundly_named(world, zone))
}
