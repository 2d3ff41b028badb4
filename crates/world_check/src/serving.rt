//! Who serves the zones of a world.
ghost use Rattle.std.specs.Prelude.{◌≡◌, []};
ghost use Rattle.std.specs.List.{list_any, list_all};
ghost use Rattle.dns_core.specs.Classifying.{is_glue_for};
ghost use Rattle.resolution.specs.Names.{is_root};
ghost use Rattle.resolution.specs.Records.{address};
ghost use Rattle.zone_rules.specs.Tree.{serves};
ghost use Rattle.world_layout.specs.Sight.{world_of};
ghost use Rattle.world_check.specs.Serving.{has_served_root, is_own_server, has_own_server, is_delegated_well, is_served_by, is_served_at, is_served_as_named, has_served_zones};

use dns_core::{Name, RData, Record};
use std::net::IpAddr;
use world_layout::{Sight, is_root};
use zone_worlds::{IndexedWorld, World, Zone, is_above};

/// The address that a record holds.
pub(crate) fn address(r: &Record) -> Option<IpAddr>
    ensures { result ≡ address r.now }
{
    match &r.rdata {
        RData::A(ip) => Some(IpAddr::V4(*ip)),
        RData::AAAA(ip) => Some(IpAddr::V6(*ip)),
        _ => None,
    }
}

// ---- the root

fn any_root(zones: &[Zone]) -> bool
    ensures { result ≡ list_any (λ zone. is_root zone.apex) zones.now }
{
    zones.iter().any(|zone| is_root(&zone.apex))
}

fn all_serve_root(world: Sight, roots: &[IpAddr]) -> bool
    ensures { result ≡ list_all (λ ip. serves (world_of world.entry) ip []) roots.now }
{
    roots.iter().all(|ip| world.serves(*ip, &[]))
}

/// Whether there is a root zone, which every root address serves.
pub(crate) fn has_served_root(world: Sight, roots: &[IpAddr]) -> bool
    ensures { result ≡ has_served_root (world_of world.entry) roots.now }
{
    any_root(world.world().zones.items()) && all_serve_root(world, roots)
}

// ---- delegations

fn is_glue_for(r: &Record, target: &Name) -> bool
    ensures { result ≡ is_glue_for target.now r.now }
{
    match &r.rdata {
        RData::A(_) | RData::AAAA(_) => r.name == *target,
        _ => false,
    }
}

fn has_glue(zone: &Zone, target: &Name) -> bool
    ensures { result ≡ list_any (is_glue_for target.now) zone.now.records }
{
    zone.records.items().iter().any(|r| is_glue_for(r, target))
}

fn is_own_server(zone: &Zone, r: &Record) -> bool
    ensures { result ≡ is_own_server zone.now r.now }
{
    match &r.rdata {
        RData::NS(target) => {
            r.name == zone.apex && is_above(&zone.apex, target) && has_glue(zone, target)
        }
        _ => false,
    }
}

fn names_own_server(zone: &Zone) -> bool
    ensures { result ≡ list_any (is_own_server zone.now) zone.now.records }
{
    zone.records.items().iter().any(|r| is_own_server(zone, r))
}

fn has_own_server(zone: &Zone) -> bool
    ensures { result ≡ has_own_server zone.now }
{
    is_root(&zone.apex) || names_own_server(zone)
}

/// Whether each zone but the root has a server of its own, with an address that it holds itself.
pub(crate) fn is_delegated_well(world: &World) -> bool
    ensures { result ≡ is_delegated_well world.now }
{
    world.zones.items().iter().all(|zone| has_own_server(zone))
}

// ---- servers

fn is_served_by(world: Sight, zone: &Zone, target: &Name, r: &Record) -> bool
    ensures { result ≡ is_served_by (world_of world.entry) zone.now target.now r.now }
{
    match address(r) {
        None => true,
        Some(ip) => !(r.name == *target) || world.serves(ip, zone.apex.labels()),
    }
}

fn are_serving(world: Sight, zone: &Zone, target: &Name, records: &[Record]) -> bool
    ensures { result ≡ list_all (is_served_by (world_of world.entry) zone.now target.now) records.now }
{
    records.iter().all(|r| is_served_by(world, zone, target, r))
}

/// Whether each address that a zone holds for the target serves the zone.
fn is_served_in(world: Sight, zone: &Zone, target: &Name) -> bool
    ensures { result ≡ is_served_at (world_of world.entry) zone.now target.now }
{
    world.world().zones.items().iter().all(|holder| are_serving(
        world,
        zone,
        target,
        holder.records.items(),
    ))
}

/// Whether each address among the records of the target serves the zone.
fn is_served_by_named(world: &IndexedWorld, zone: &Zone, target: &Name) -> bool
    ensures { result ≡ is_served_at world.now zone.now target.now }
{
    let records = world.named(target);
    are_serving(Sight::Indexed(world), zone, target, records)
}

fn is_served_at(world: Sight, zone: &Zone, target: &Name) -> bool
    ensures { result ≡ is_served_at (world_of world.entry) zone.now target.now }
{
    match world {
        Sight::Plain(_) => is_served_in(world, zone, target),
        Sight::Indexed(indexed) => is_served_by_named(indexed, zone, target),
    }
}

fn is_served_as_named(world: Sight, zone: &Zone, r: &Record) -> bool
    ensures { result ≡ is_served_as_named (world_of world.entry) zone.now r.now }
{
    match &r.rdata {
        RData::NS(target) => r.name == zone.apex && is_served_at(world, zone, target),
        _ => true,
    }
}

fn are_served_as_named(world: Sight, zone: &Zone) -> bool
    ensures { result ≡ list_all (is_served_as_named (world_of world.entry) zone.now) zone.now.records }
{
    zone.records
        .items()
        .iter()
        .all(|r| is_served_as_named(world, zone, r))
}

/// Whether NS records stand at an apex only, and each address of their targets serves that zone.
pub(crate) fn has_served_zones(world: Sight) -> bool
    ensures { result ≡ has_served_zones (world_of world.entry) }
{
    world
        .world()
        .zones
        .items()
        .iter()
        .all(|zone| are_served_as_named(world, zone))
}
