//! Where the zones of a world lie, and what the world owns.
ghost use Rattle.std.specs.Prelude.{◌≡◌, ◌==◌, drop, length, find, if◌then◌else◌};
ghost use Rattle.std.specs.Option.{option_copied};
ghost use Rattle.std.specs.List.{list_any};
ghost use Rattle.dns_core.specs.Name.{same_names};
ghost use Rattle.resolution.specs.Names.{is_above, walk};
ghost use Rattle.resolution.specs.Answering.{with_name};
ghost use Rattle.zone_rules.specs.Tree.{qualified, zone_at, nearest, first_cut, host_of, numbered, has_apex, zone_among, serves, exists_in};

use crate::world::{Host, World, Zone};
use dns_core::{Label, Name, Query, Record, RecordType};
use std::net::IpAddr;

/// Whether the zone is at or above the name.
pub fn is_above(zone: &Name, name: &Name) -> bool
    ensures { result ≡ is_above zone.now name.now }
{
    zone.is_fqdn() && name.is_fqdn() && zone.zone_of(name)
}

/// Whether a zone's apex is the fully qualified name with these labels.
fn is_apex(zone: &Zone, labels: &[Label]) -> bool
    ensures { result ≡ same_names zone.now.apex (qualified labels.now) }
{
    zone.apex.labels() == labels && zone.apex.is_fqdn()
}

fn zone_of_number(zones: &[Zone], number: u32) -> Option<&Zone>
    ensures { option_copied result ≡ numbered zones.now number }
{
    if number == 0 {
        return None;
    }
    zones.get(number as usize - 1)
}

fn has_apex(zones: &[Zone], number: u32, labels: &[Label]) -> bool
    ensures { result ≡ has_apex labels.now (numbered zones.now number) }
{
    match zone_of_number(zones, number) {
        Some(zone) => is_apex(zone, labels),
        None => false,
    }
}

fn number_with_apex(zones: &[Zone], numbers: &[u32], labels: &[Label]) -> Option<u32>
    ensures { result ≡ find (λ n. has_apex labels.now (numbered zones.now n)) numbers.now }
{
    numbers
        .iter()
        .copied()
        .find(|n| has_apex(zones, *n, labels))
}

/// The zone of one of these numbers whose apex has these labels.
pub fn zone_among<'w>(zones: &'w [Zone], numbers: &[u32], labels: &[Label]) -> Option<&'w Zone>
    ensures { option_copied result ≡ zone_among zones.now numbers.now labels.now }
{
    match number_with_apex(zones, numbers, labels) {
        Some(number) => zone_of_number(zones, number),
        None => None,
    }
}

fn zone_with_apex<'w>(zones: &'w [Zone], labels: &[Label]) -> Option<&'w Zone>
    ensures { option_copied result ≡ zone_at zones.now labels.now }
{
    zones.iter().find(|z| is_apex(z, labels))
}

#[tactic(auto, using(crate::proofs::NameSteps::nearest_here, crate::proofs::NameSteps::nearest_none, crate::proofs::NameSteps::nearest_above))]
/// The deepest of the zones of these numbers at or above the fully qualified name with these labels.
pub fn nearest<'w>(zones: &'w [Zone], numbers: &[u32], labels: &[Label]) -> Option<&'w Zone>
    ensures { option_copied result ≡ nearest (λ ls. zone_among zones.now numbers.now ls) labels.now }
{
    if let Some(zone) = zone_among(zones, numbers, labels) {
        return Some(zone);
    }
    if labels.is_empty() {
        return None;
    }
    nearest(zones, numbers, &labels[1..])
}

#[tactic(auto, using(crate::proofs::NameSteps::first_cut_above, crate::proofs::NameSteps::first_cut_higher, crate::proofs::NameSteps::first_cut_here))]
/// The highest of the zones at or above the name with these labels that has more labels than `apex`.
pub fn first_cut<'w>(zones: &'w [Zone], apex: usize, labels: &[Label]) -> Option<&'w Zone>
    ensures { option_copied result ≡ first_cut zones.now apex labels.now }
{
    if labels.len() <= apex {
        return None;
    }
    if let Some(zone) = first_cut(zones, apex, &labels[1..]) {
        return Some(zone);
    }
    zone_with_apex(zones, labels)
}

/// The labels of the name to which a question is walked: for DS those of the base name.
pub fn walked<'n>(name: &'n Name, query: &Query) -> &'n [Label]
    ensures { result.now ≡ (walk (with_name name.now query.now)).labels }
{
    let labels = name.labels();
    if query.query_type.code == 43 && !labels.is_empty() {
        &labels[1..]
    } else {
        labels
    }
}

impl World {
    /// The host with the address.
    pub fn host(&self, ip: IpAddr) -> Option<&Host>
        ensures { option_copied result ≡ host_of self.now ip }
    {
        self.hosts.items().iter().find(|h| h.ip == ip)
    }

    /// Whether the address is a host that serves the zone whose apex has these labels.
    pub fn serves(&self, ip: IpAddr, apex: &[Label]) -> bool
        ensures { result ≡ serves self.now ip apex.now }
    {
        match self.host(ip) {
            None => false,
            Some(host) => zone_among(self.zones.items(), host.zones.items(), apex).is_some(),
        }
    }

    /// Whether the name or a name below it owns a record in some zone.
    pub fn exists(&self, name: &Name) -> bool
        ensures { result ≡ exists_in self.now name.now }
    {
        self.zones.items().iter().any(|z| owns_below(z, name))
    }
}

fn owns_below(zone: &Zone, name: &Name) -> bool
    ensures { result ≡ list_any (λ r. is_above name.now r.name) zone.now.records }
{
    zone.records.items().iter().any(|r| is_above(name, &r.name))
}
