//! The records of a zone that an answer takes, in the zone's order.
ghost use Rattle.std.specs.Prelude.{◌≡◌, ◌&&◌, ◌||◌, ◌==◌, true, false, length, find, filter, IfOk, IfSome, IfNone, Some, None};
ghost use Rattle.std.specs.List.{list_any};
ghost use Rattle.std.specs.Option.{option_copied};
ghost use Rattle.dns_core.specs.Name.{same_names};
ghost use Rattle.dns_core.specs.Classifying.{is_soa, is_ns, is_address};
ghost use Rattle.resolution.specs.Names.{is_above};
ghost use Rattle.resolution.specs.Records.{cname_target};
ghost use Rattle.zone_rules.specs.Choosing.{is_of, owned, is_alias, alias_in, soa_of, servers, names_server, server_addresses};

use crate::tree::is_above;
use crate::world::Zone;
use dns_core::{Items, Name, NoMemory, RData, Record, RecordType, Records, TryClone};
use std::alloc::Global;

/// Whether a record is of the type, for which ANY stands for all.
fn is_owned(r: &Record, name: &Name, asked: RecordType) -> bool
    ensures { result ≡ (same_names r.now.name name.now && is_of asked r.now) }
{
    r.name == *name && (asked.code == 255 || r.record_type.code == asked.code)
}

/// The records of the type at a name.
pub fn owned(
    alloc: Global,
    zone: &Zone,
    name: &Name,
    asked: RecordType,
) -> Result<Vec<Record>, NoMemory>
    ensures { IfOk result (λ rs. rs.items ≡ owned zone.now name.now asked) }
{
    let mut found = Vec::new(alloc);
    for r in zone.records.items() {
        if is_owned(r, name, asked) {
            found.push(r.try_clone(alloc)?)?;
        }
    }
    Ok(found)
}

/// An alias, and the name to which it leads.
#[derive(Drop)]
pub struct Alias<'w> {
    pub record: &'w Record,
    pub target: &'w Name,
}

fn alias_target<'w>(r: &'w Record, name: &Name) -> Option<&'w Name>
    ensures some { IfSome result (λ target. cname_target r.now ≡ Some target.now) }
    ensures is_alias { IfSome result (λ target. is_alias name.now r.now ≡ true) }
    ensures none { IfNone result (is_alias name.now r.now ≡ false) }
{
    match &r.rdata {
        RData::CNAME(target) => { if r.name == *name { Some(target) } else { None } }
        _ => None,
    }
}

/// Whether a record is an alias of the name.
pub fn is_alias(r: &Record, name: &Name) -> bool
    ensures { result ≡ is_alias name.now r.now }
{
    match &r.rdata {
        RData::CNAME(_) => r.name == *name,
        _ => false,
    }
}

/// The first alias of the name.
pub fn alias_in<'w>(zone: &'w Zone, name: &Name) -> Option<Alias<'w>>
    ensures some { IfSome result (λ alias. alias_in zone.now name.now ≡ Some alias.record.now) }
    ensures leads { IfSome result (λ alias. cname_target alias.record.now ≡ Some alias.target.now) }
    ensures none { IfNone result (alias_in zone.now name.now ≡ None) }
{
    for r in zone.records.items() {
        if let Some(target) = alias_target(r, name) {
            return Some(Alias { record: r, target });
        }
    }
    None
}

/// Whether a record is an SOA record of the name.
pub fn is_soa_of(r: &Record, apex: &Name) -> bool
    ensures { result ≡ (is_soa r.now && same_names r.now.name apex.now) }
{
    match &r.rdata {
        RData::SOA(_) => r.name == *apex,
        _ => false,
    }
}

fn first_soa(zone: &Zone) -> Option<&Record>
    ensures { option_copied result ≡ find (λ r. is_soa r && same_names r.name zone.now.apex) zone.now.records }
{
    zone.records
        .items()
        .iter()
        .find(|r| is_soa_of(r, &zone.apex))
}

/// The first SOA record at the apex.
pub fn soa_of(alloc: Global, zone: &Zone) -> Result<Records, NoMemory>
    ensures { IfOk result (λ rs. rs ≡ soa_of zone.now) }
{
    let mut found = Vec::new(alloc);
    match first_soa(zone) {
        Some(soa) => {
            found.push(soa.try_clone(alloc)?)?;
            Ok(Items::new(found))
        }
        None => Ok(Items::new(found)),
    }
}

/// Whether a record is an NS record of the name.
pub fn is_ns_of(r: &Record, owner: &Name) -> bool
    ensures { result ≡ (is_ns r.now && same_names r.now.name owner.now) }
{
    match &r.rdata {
        RData::NS(_) => r.name == *owner,
        _ => false,
    }
}

/// The NS records of a name.
pub fn servers(alloc: Global, zone: &Zone, owner: &Name) -> Result<Records, NoMemory>
    ensures { IfOk result (λ rs. rs ≡ servers zone.now owner.now) }
{
    let mut found = Vec::new(alloc);
    for r in zone.records.items() {
        if is_ns_of(r, owner) {
            found.push(r.try_clone(alloc)?)?;
        }
    }
    Ok(Items::new(found))
}

fn names_server(r: &Record, owner: &Name, target: &Name) -> bool
    ensures { result ≡ names_server owner.now target.now r.now }
{
    match &r.rdata {
        RData::NS(name) => r.name == *owner && *name == *target,
        _ => false,
    }
}

fn is_server(zone: &Zone, owner: &Name, target: &Name) -> bool
    ensures { result ≡ list_any (names_server owner.now target.now) zone.now.records }
{
    zone.records
        .items()
        .iter()
        .any(|r| names_server(r, owner, target))
}

fn is_address(r: &Record) -> bool
    ensures { result ≡ is_address r.now }
{
    match &r.rdata {
        RData::A(_) | RData::AAAA(_) => true,
        _ => false,
    }
}

fn is_server_address(r: &Record, zone: &Zone, owner: &Name) -> bool
    ensures { result ≡ (is_address r.now && is_above zone.now.apex r.now.name && list_any (names_server owner.now r.now.name) zone.now.records) }
{
    is_address(r) && is_above(&zone.apex, &r.name) && is_server(zone, owner, &r.name)
}

/// The addresses that the zone holds, at or below its apex, for the targets of a name's NS records.
pub fn server_addresses(alloc: Global, zone: &Zone, owner: &Name) -> Result<Records, NoMemory>
    ensures { IfOk result (λ rs. rs ≡ server_addresses zone.now owner.now) }
{
    let mut found = Vec::new(alloc);
    for r in zone.records.items() {
        if is_server_address(r, zone, owner) {
            found.push(r.try_clone(alloc)?)?;
        }
    }
    Ok(Items::new(found))
}
