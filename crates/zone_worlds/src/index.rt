//! Where the zones of a world stand and which names exist in it, each found by one look-up.
ghost use Rattle.std.specs.Prelude.{◌≡◌, ◌||◌, true, false, find, filter, IfOk, OnOk, IsTrue, Some, None, if◌then◌else◌};
ghost use Rattle.std.specs.Option.{option_copied, option_or};
ghost use Rattle.std.specs.List.{list_any};
ghost use Rattle.std.specs.declared.net.IpAddr.{IpAddr};
ghost use Rattle.std.specs.contracts.net.ip_addr.IpAddrPartialEq.TheImpl as address;
ghost use Rattle.std.specs.HashMap.{get};
ghost use Rattle.std.specs.HashSet.{contains};
ghost use Rattle.dns_core.specs.Name.{DomainName, same_names};
ghost use Rattle.resolution.specs.Names.{is_above, walk};
ghost use Rattle.resolution.specs.Answering.{with_name};
ghost use Rattle.zone_rules.specs.Tree.{host_of, zone_at, nearest, first_cut, zone_of, exists_in};
ghost use Rattle.zone_worlds.specs.Telling.{child_of};
ghost use Rattle.zone_worlds.specs.Index.{FindsZones, FindsHosts, FindsNames, IsIndex, all_records};

use crate::records::held_by;
use dns_core::{Name, NoMemory, Query, Record, Records, TryClone};
use std::alloc::Global;
use std::collections::{HashMap, HashSet};
use std::net::IpAddr;
use zone_rules::{Host, World, Zone};

/// The place of the first zone of each apex, and of the first host of each address, each name at or below which a record is owned, and the
/// records of each name.
#[derive(Drop)]
pub(crate) struct Index {
    pub zones: HashMap<Name, usize>,
    pub hosts: HashMap<IpAddr, usize>,
    pub names: HashSet<Name>,
    pub records: HashMap<Name, Records>,
}

/// Puts a place under an apex that has none.
fn put_first(zones: &mut HashMap<Name, usize>, apex: Name, place: usize) -> Result<(), NoMemory>
    ensures { OnOk result ((n : DomainName) → get same_names zones.new n ≡ option_or (get same_names zones.old n) (if same_names apex n then Some place else None)) }
{
    if !zones.contains_key(&apex) {
        zones.insert(apex, place)?;
    }
    Ok(())
}

/// The places of the zones.
fn places_of(alloc: Global, zones: &[Zone]) -> Result<HashMap<Name, usize>, NoMemory>
    ensures { IfOk result (FindsZones zones.now zones.now) }
{
    let mut places = HashMap::new(alloc);
    for (place, zone) in zones.iter().enumerate() {
        put_first(&mut places, zone.apex.try_clone(alloc)?, place)?;
    }
    Ok(places)
}

/// Puts a place under an address that has none.
fn put_host(hosts: &mut HashMap<IpAddr, usize>, ip: IpAddr, place: usize) -> Result<(), NoMemory>
    ensures { OnOk result ((a : IpAddr) → get address.ghosts.eq hosts.new a ≡ option_or (get address.ghosts.eq hosts.old a) (if address.ghosts.eq ip a then Some place else None)) }
{
    if !hosts.contains_key(&ip) {
        hosts.insert(ip, place)?;
    }
    Ok(())
}

/// The places of the hosts.
fn hosts_of(alloc: Global, hosts: &[Host]) -> Result<HashMap<IpAddr, usize>, NoMemory>
    ensures { IfOk result (FindsHosts hosts.now hosts.now) }
{
    let mut places = HashMap::new(alloc);
    for (place, host) in hosts.iter().enumerate() {
        put_host(&mut places, host.ip, place)?;
    }
    Ok(places)
}

/// Adds a fully qualified name and each name above it.
fn add_above(names: &mut HashSet<Name>, alloc: Global, name: &Name) -> Result<(), NoMemory>
    requires { IsTrue name.now.fqdn }
    ensures { OnOk result ((n : DomainName) → n.fqdn ≡ true → contains same_names names.new n ≡ (contains same_names names.old n || is_above n name.now)) }
{
    names.insert(name.try_clone(alloc)?)?;
    if name.labels().is_empty() {
        return Ok(());
    }
    let above = name.base_name(alloc)?;
    add_above(names, alloc, &above)
}

fn add_owner(names: &mut HashSet<Name>, alloc: Global, name: &Name) -> Result<(), NoMemory>
    ensures { OnOk result ((n : DomainName) → n.fqdn ≡ true → contains same_names names.new n ≡ (contains same_names names.old n || is_above n name.now)) }
{
    if name.is_fqdn() {
        add_above(names, alloc, name)
    } else {
        Ok(())
    }
}

/// Adds the owners of records, and each name above them.
fn add_owners(names: &mut HashSet<Name>, alloc: Global, records: &[Record]) -> Result<(), NoMemory>
    ensures { OnOk result ((n : DomainName) → n.fqdn ≡ true → contains same_names names.new n ≡ (contains same_names names.old n || list_any (λ r. is_above n r.name) records.now)) }
{
    for r in records {
        add_owner(names, alloc, &r.name)?;
    }
    Ok(())
}

/// The names that exist in these zones.
fn names_of(alloc: Global, zones: &[Zone]) -> Result<HashSet<Name>, NoMemory>
    ensures { IfOk result (FindsNames zones.now) }
{
    let mut names = HashSet::new(alloc);
    for zone in zones {
        add_owners(&mut names, alloc, zone.records.items())?;
    }
    Ok(names)
}

/// The name to which a question is walked that is asked at this name: for DS the base name.
fn walk(alloc: Global, name: &Name, query: &Query) -> Result<Name, NoMemory>
    ensures { IfOk result (λ at. at ≡ walk (with_name name.now query.now)) }
{
    if query.query_type.code == 43 {
        name.base_name(alloc)
    } else {
        name.try_clone(alloc)
    }
}

impl Index {
    /// The index of a world.
    pub fn of(alloc: Global, world: &World) -> Result<Index, NoMemory>
        ensures { IfOk result (IsIndex world.now) }
    {
        let zones = places_of(alloc, world.zones.items())?;
        let hosts = hosts_of(alloc, world.hosts.items())?;
        let names = names_of(alloc, world.zones.items())?;
        let records = held_by(alloc, world.zones.items())?;
        Ok(Index {
            zones,
            hosts,
            names,
            records,
        })
    }

    /// The host with the address.
    pub fn host<'w>(&self, world: &'w World, ip: IpAddr) -> Option<&'w Host>
        requires { IsIndex world.now self.now }
        ensures { option_copied result ≡ host_of world.now ip }
    {
        match self.hosts.get(&ip) {
            Some(place) => world.hosts.items().get(*place),
            None => None,
        }
    }

    /// The zone with this apex.
    fn zone<'w>(&self, world: &'w World, apex: &Name) -> Option<&'w Zone>
        requires index { IsIndex world.now self.now }
        requires qualified { IsTrue apex.now.fqdn }
        ensures { option_copied result ≡ zone_at world.now.zones apex.now.labels }
    {
        match self.zones.get(apex) {
            Some(place) => world.zones.items().get(*place),
            None => None,
        }
    }

    #[tactic(auto, using(zone_rules::proofs::NameSteps::nearest_here, zone_rules::proofs::NameSteps::nearest_none, zone_rules::proofs::NameSteps::nearest_above))]
    /// The deepest of the zones at or above the name.
    fn nearest<'w>(
        &self,
        alloc: Global,
        world: &'w World,
        name: &Name,
    ) -> Result<Option<&'w Zone>, NoMemory>
        requires index { IsIndex world.now self.now }
        requires qualified { IsTrue name.now.fqdn }
        ensures { IfOk result (λ found. option_copied found ≡ nearest (λ labels. zone_at world.now.zones labels) name.now.labels) }
    {
        if let Some(zone) = self.zone(world, name) {
            return Ok(Some(zone));
        }
        if name.labels().is_empty() {
            return Ok(None);
        }
        let above = name.base_name(alloc)?;
        self.nearest(alloc, world, &above)
    }

    /// The deepest zone at or above the name, for a question for DS at or above its base name.
    pub fn zone_of<'w>(
        &self,
        alloc: Global,
        world: &'w World,
        name: &Name,
        query: &Query,
    ) -> Result<Option<&'w Zone>, NoMemory>
        requires { IsIndex world.now self.now }
        ensures { IfOk result (λ found. option_copied found ≡ zone_of world.now (with_name name.now query.now)) }
    {
        if !name.is_fqdn() {
            return Ok(None);
        }
        let at = walk(alloc, name, query)?;
        self.nearest(alloc, world, &at)
    }

    #[tactic(auto, using(zone_rules::proofs::NameSteps::first_cut_above, zone_rules::proofs::NameSteps::first_cut_higher, zone_rules::proofs::NameSteps::first_cut_here))]
    /// The highest of the zones at or above the name that has more labels than `apex`.
    pub fn first_cut<'w>(
        &self,
        alloc: Global,
        world: &'w World,
        apex: usize,
        name: &Name,
    ) -> Result<Option<&'w Zone>, NoMemory>
        requires index { IsIndex world.now self.now }
        requires qualified { IsTrue name.now.fqdn }
        ensures { IfOk result (λ found. option_copied found ≡ first_cut world.now.zones apex name.now.labels) }
    {
        if name.labels().len() <= apex {
            return Ok(None);
        }
        let above = name.base_name(alloc)?;
        if let Some(zone) = self.first_cut(alloc, world, apex, &above)? {
            return Ok(Some(zone));
        }
        Ok(self.zone(world, name))
    }

    /// The highest zone below a zone on the way to the name to which a question is walked.
    pub fn child_of<'w>(
        &self,
        alloc: Global,
        world: &'w World,
        zone: &Zone,
        query: &Query,
    ) -> Result<Option<&'w Zone>, NoMemory>
        requires index { IsIndex world.now self.now }
        requires qualified { IsTrue query.now.name.fqdn }
        ensures { IfOk result (λ found. option_copied found ≡ child_of world.now zone.now query.now) }
    {
        let apex = zone.apex.labels().len();
        let name = walk(alloc, &query.name, query)?;
        self.first_cut(alloc, world, apex, &name)
    }

    /// Whether the name or a name below it owns a record in some zone.
    pub fn exists(&self, world: &World, name: &Name) -> bool
        requires { IsIndex world.now self.now }
        ensures { result ≡ exists_in world.now name.now }
    {
        let _world = world;
        name.is_fqdn() && self.names.contains(name)
    }

    /// The records of a name, of all zones.
    pub fn named(&self, world: &World, name: &Name) -> &[Record]
        requires { IsIndex world.now self.now }
        ensures { result.now ≡ filter (λ r. same_names r.name name.now) (all_records world.now.zones) }
    {
        let _world = world;
        match self.records.get(name) {
            Some(records) => records.items(),
            None => &[],
        }
    }
}
