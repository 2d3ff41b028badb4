//! The zones and the hosts of a world that are read so far. That an apex or an address is new is seen
//! in a set of those that are there.
ghost use Rattle.std.specs.Prelude.{◌≡◌, ◌++◌, ◌∷◌, ◌-◌, ◌||◌, [], length, take, OnOk, OnErr};
ghost use Rattle.std.specs.BTreeSet.{contains};
ghost use Rattle.std.specs.declared.net.ip_addr.IpAddr.{IpAddr as Address};
ghost use Rattle.std.specs.contracts.net.ip_addr.IpAddrPartialEq.TheImpl as address;
ghost use Rattle.std.specs.contracts.net.ip_addr.IpAddrOrd.TheImpl as order;
ghost use Rattle.dns_core.specs.Name.{DomainName, same_names, names_cmp};
ghost use Rattle.recursor_text.specs.Listed.{has_apex, has_address, AreApexes, AreAddresses};

use dns_core::{Items, Name, NoMemory, TryClone};
use std::alloc::Global;
use std::collections::BTreeSet;
use std::marker::Model;
use std::net::IpAddr;
use zone_worlds::{Host, Zone};

/// Zones in their order; clauses see their list.
#[derive(Drop)]
pub struct ZoneList {
    zones: Vec<Zone>,
    apexes: BTreeSet<Name>,
}

impl Model for ZoneList {
    ghost use Rattle.std.specs.Prelude.{List};
    ghost use Rattle.zone_rules.specs.declared.world.Zone.{Zone};
    ghost use Rattle.recursor_text.specs.Listed.{AreApexes};

    ghost Value = { List Zone };

    ghost view = { λ a. a.zones.items };

    ghost invariant = { λ a. AreApexes a.zones.items a.apexes };
}

/// Hosts in their order; clauses see their list.
#[derive(Drop)]
pub struct HostList {
    hosts: Vec<Host>,
    addresses: BTreeSet<IpAddr>,
}

impl Model for HostList {
    ghost use Rattle.std.specs.Prelude.{List};
    ghost use Rattle.zone_rules.specs.declared.world.Host.{Host};
    ghost use Rattle.recursor_text.specs.Listed.{AreAddresses};

    ghost Value = { List Host };

    ghost view = { λ a. a.hosts.items };

    ghost invariant = { λ a. AreAddresses a.hosts.items a.addresses };
}

fn add_apex(apexes: &mut BTreeSet<Name>, apex: Name) -> Result<(), NoMemory>
    ensures ok { OnOk result ((n : DomainName) → contains names_cmp apexes.new n ≡ (same_names apex n || contains names_cmp apexes.old n)) }
    ensures err { OnErr result (apexes.new.keys ≡ apexes.old.keys) }
{
    let _new = apexes.insert(apex)?;
    Ok(())
}

fn add_address(addresses: &mut BTreeSet<IpAddr>, ip: IpAddr) -> Result<(), NoMemory>
    ensures ok { OnOk result ((a : Address) → contains order.ghosts.cmp addresses.new a ≡ (address.ghosts.eq ip a || contains order.ghosts.cmp addresses.old a)) }
    ensures err { OnErr result (addresses.new.keys ≡ addresses.old.keys) }
{
    let _new = addresses.insert(ip)?;
    Ok(())
}

fn drop_zone(zones: &mut Vec<Zone>)
    ensures { zones.new.items ≡ take (length zones.old.items - 1) zones.old.items }
{
    let _zone = zones.pop();
}

fn drop_host(hosts: &mut Vec<Host>)
    ensures { hosts.new.items ≡ take (length hosts.old.items - 1) hosts.old.items }
{
    let _host = hosts.pop();
}

/// Adds a zone at the end, and its apex to the set.
fn list_zone(
    alloc: Global,
    zones: &mut Vec<Zone>,
    apexes: &mut BTreeSet<Name>,
    zone: Zone,
) -> Result<(), NoMemory>
    requires { AreApexes zones.old.items apexes.old }
    ensures ok { OnOk result (zones.new.items ≡ zones.old.items ++ zone ∷ []) }
    ensures err { OnErr result (zones.new.items ≡ zones.old.items) }
    ensures kept { AreApexes zones.new.items apexes.new }
{
    let apex = zone.apex.try_clone(alloc)?;
    zones.push(zone)?;
    match add_apex(apexes, apex) {
        Ok(()) => Ok(()),
        Err(NoMemory) => {
            drop_zone(zones);
            Err(NoMemory)
        }
    }
}

/// Adds a host at the end, and its address to the set.
fn list_host(
    hosts: &mut Vec<Host>,
    addresses: &mut BTreeSet<IpAddr>,
    host: Host,
) -> Result<(), NoMemory>
    requires { AreAddresses hosts.old.items addresses.old }
    ensures ok { OnOk result (hosts.new.items ≡ hosts.old.items ++ host ∷ []) }
    ensures err { OnErr result (hosts.new.items ≡ hosts.old.items) }
    ensures kept { AreAddresses hosts.new.items addresses.new }
{
    let ip = host.ip;
    hosts.push(host)?;
    match add_address(addresses, ip) {
        Ok(()) => Ok(()),
        Err(NoMemory) => {
            drop_host(hosts);
            Err(NoMemory)
        }
    }
}

impl ZoneList {
    pub fn new(alloc: Global) -> Self
        ensures { result ≡ [] }
    {
        ZoneList {
            zones: Vec::new(alloc),
            apexes: BTreeSet::new(alloc),
        }
    }

    pub fn len(&self) -> usize
        ensures { result ≡ length self.now }
    {
        self.zones.len()
    }

    /// Whether a zone has this apex, without case.
    pub fn has(&self, apex: &Name) -> bool
        ensures { result ≡ has_apex self.now apex.now }
    {
        self.apexes.contains(apex)
    }

    /// Adds a zone at the end.
    pub fn push(&mut self, alloc: Global, zone: Zone) -> Result<(), NoMemory>
        ensures ok { OnOk result (self.new ≡ self.old ++ zone ∷ []) }
        ensures err { OnErr result (self.new ≡ self.old) }
    {
        list_zone(alloc, &mut self.zones, &mut self.apexes, zone)
    }

    pub fn into_items(self) -> Items<Zone>
        ensures { result ≡ self }
    {
        Items::new(self.zones)
    }
}

impl HostList {
    pub fn new(alloc: Global) -> Self
        ensures { result ≡ [] }
    {
        HostList {
            hosts: Vec::new(alloc),
            addresses: BTreeSet::new(alloc),
        }
    }

    pub fn len(&self) -> usize
        ensures { result ≡ length self.now }
    {
        self.hosts.len()
    }

    /// Whether a host has this address.
    pub fn has(&self, ip: &IpAddr) -> bool
        ensures { result ≡ has_address self.now ip.now }
    {
        self.addresses.contains(ip)
    }

    /// Adds a host at the end.
    pub fn push(&mut self, host: Host) -> Result<(), NoMemory>
        ensures ok { OnOk result (self.new ≡ self.old ++ host ∷ []) }
        ensures err { OnErr result (self.new ≡ self.old) }
    {
        list_host(&mut self.hosts, &mut self.addresses, host)
    }

    pub fn into_items(self) -> Items<Host>
        ensures { result ≡ self }
    {
        Items::new(self.hosts)
    }
}
