//! Which addresses may be asked: those outside of all denied networks, and those in an allowed one.
ghost use Rattle.std.specs.Prelude.{◌≡◌, ◌++◌, ◌↔◌, [], IfOk, IsTrue};
ghost use Rattle.std.specs.List.{list_any};
ghost use Rattle.resolver_settings.specs.Access.{Access, denies, is_in_any};
ghost use Rattle.resolver_settings.specs.Net.{holds};

use crate::net::{IpNet, number};
use dns_core::{Items, NoMemory, TryClone, try_clone_all};
use std::alloc::Global;
use std::marker::Model;
use std::net::IpAddr;

/// Networks, in an order.
pub type Nets = Items<IpNet>;

/// Collects the networks of a set. The order of the calls is kept.
#[derive(Drop, Debug)]
pub struct AccessControlSetBuilder {
    name: &'static str,
    allow: Vec<IpNet>,
    deny: Vec<IpNet>,
}

impl Model for AccessControlSetBuilder {
    ghost Value = { Access };

    ghost view = { λ a. record { name = a.name.now; allow = a.allow.items; deny = a.deny.items } };
}

/// Networks that are denied, and networks that are allowed all the same.
#[derive(Debug)]
pub struct AccessControlSet {
    name: &'static str,
    allow: Vec<IpNet>,
    deny: Vec<IpNet>,
}

impl Drop for AccessControlSet {
    fn drop(self) {
        let AccessControlSet {
            name: _,
            allow: _,
            deny: _,
        } = self;
    }
}

impl Model for AccessControlSet {
    ghost Value = { Access };

    ghost view = { λ a. record { name = a.name.now; allow = a.allow.items; deny = a.deny.items } };
}

impl AccessControlSetBuilder {
    /// A set without networks, which denies nothing. The name tells what the set is for.
    pub fn new(alloc: Global, name: &'static str) -> Self
        ensures { result ≡ record { name = name.now; allow = []; deny = [] } }
    {
        AccessControlSetBuilder {
            name,
            allow: Vec::new(alloc),
            deny: Vec::new(alloc),
        }
    }

    /// Allows these networks too. It fails only where memory runs out.
    pub fn allow(mut self, _alloc: Global, nets: &[IpNet]) -> Result<Self, NoMemory>
        ensures { IfOk result (λ a. a ≡ record self { allow = self.allow ++ nets.now }) }
    {
        self.allow.extend_from_slice(nets)?;
        Ok(self)
    }

    /// Denies these networks too. It fails only where memory runs out.
    pub fn deny(mut self, _alloc: Global, nets: &[IpNet]) -> Result<Self, NoMemory>
        ensures { IfOk result (λ a. a ≡ record self { deny = self.deny ++ nets.now }) }
    {
        self.deny.extend_from_slice(nets)?;
        Ok(self)
    }

    /// The set of what was collected.
    pub fn build(self) -> AccessControlSet
        ensures { result ≡ self }
    {
        AccessControlSet {
            name: self.name,
            allow: self.allow,
            deny: self.deny,
        }
    }
}

/// Whether some network of this family holds the address of this number.
fn holds_number(nets: &[IpNet], is_ipv4: bool, number: u128) -> bool
    ensures { result ≡ list_any (λ net. holds net is_ipv4 number) nets.now }
{
    nets.iter().any(|net| net.holds(is_ipv4, number))
}

/// Whether some network holds the address.
fn is_in_any(nets: &[IpNet], ip: IpAddr) -> bool
    ensures { result ≡ is_in_any nets.now ip }
{
    holds_number(nets, ip.is_ipv4(), number(ip))
}

impl AccessControlSet {
    /// What the set is for.
    pub fn name(&self) -> &'static str
        ensures { result.now ≡ self.now.name }
    {
        self.name
    }

    /// Whether the address is in a denied network and in no allowed one. The time grows with the
    /// number of networks alone.
    pub fn denied(&self, ip: IpAddr) -> bool
        ensures { result ≡ denies self.now ip }
    {
        is_in_any(self.deny.as_slice(), ip) && !is_in_any(self.allow.as_slice(), ip)
    }

    /// Whether no network is denied, so that each address may be asked.
    pub fn allows_all(&self) -> bool
        ensures { IsTrue result ↔ (self.now.deny ≡ []) }
    {
        self.deny.is_empty()
    }
}

impl TryClone for AccessControlSetBuilder {
    fn try_clone(&self, alloc: Global) -> Result<Self, NoMemory> {
        let allow = try_clone_all(alloc, &self.allow)?;
        let deny = try_clone_all(alloc, &self.deny)?;
        Ok(AccessControlSetBuilder {
            name: self.name,
            allow,
            deny,
        })
    }
}

impl TryClone for AccessControlSet {
    fn try_clone(&self, alloc: Global) -> Result<Self, NoMemory> {
        let allow = try_clone_all(alloc, &self.allow)?;
        let deny = try_clone_all(alloc, &self.deny)?;
        Ok(AccessControlSet {
            name: self.name,
            allow,
            deny,
        })
    }
}
