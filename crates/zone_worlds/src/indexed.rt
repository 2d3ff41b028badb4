//! Worlds in which zones and names are found by look-ups.
ghost use Rattle.std.specs.Prelude.{◌≡◌, ◌↔◌, filter, IfOk, IsTrue};
ghost use Rattle.std.specs.Option.{option_copied};
ghost use Rattle.dns_core.specs.Name.{same_names};
ghost use Rattle.zone_rules.specs.Tree.{first_cut, serves};
ghost use Rattle.zone_worlds.specs.Index.{all_records};
ghost use Rattle.zone_worlds.specs.Telling.{Tells};
ghost use Rattle.zone_worlds.specs.Answer.{Answers};
ghost use Rattle.zone_worlds.specs.Valid.{IsValid};

use crate::answer::answer_of;
use crate::index::Index;
use crate::telling::{referral, refusal, reply_of, zone_asked};
use crate::valid::is_valid;
use dns_core::{Label, Message, Name, NoMemory, Query, Record};
use std::alloc::Global;
use std::marker::Model;
use std::net::IpAddr;
use zone_rules::{World, WorldAnswer, Zone, zone_among};

/// A world with an index of its zones and names, which contracts see as the world.
pub struct IndexedWorld {
    world: World,
    index: Index,
}

impl Drop for IndexedWorld {
    fn drop(self) {
        let IndexedWorld { world: _, index: _ } = self;
    }
}

impl Model for IndexedWorld {
    ghost use Rattle.zone_rules.specs.declared.world.World.{World};
    ghost use Rattle.zone_worlds.specs.Index.{IsIndex};

    ghost Value = { World };

    ghost view = { λ a. a.world };

    ghost invariant = { λ a. IsIndex a.world a.index };
}

impl IndexedWorld {
    /// Makes the index, once.
    pub fn new(alloc: Global, world: World) -> Result<IndexedWorld, NoMemory>
        ensures { IfOk result (λ indexed. indexed ≡ world) }
    {
        let index = Index::of(alloc, &world)?;
        Ok(IndexedWorld { world, index })
    }

    pub fn world(&self) -> &World
        ensures { result.now ≡ self.now }
    {
        &self.world
    }

    /// What an address tells for a question, as `told` says, by look-ups.
    pub fn told(&self, alloc: Global, ip: IpAddr, query: &Query) -> Result<Message, NoMemory>
        ensures { IfOk result (Tells self.now ip query.now) }
    {
        let host = self.index.host(&self.world, ip);
        let Some(zone) = zone_asked(&self.world, host, ip, query) else {
            return refusal(alloc, query);
        };
        if let Some(child) = self.index.child_of(alloc, &self.world, zone, query)? {
            return referral(alloc, child, query);
        }
        let exists = self.index.exists(&self.world, &query.name);
        reply_of(alloc, &self.world, zone, query, exists)
    }

    /// What the world answers to a question, as `world_answer` says, by look-ups.
    pub fn answer(&self, alloc: Global, query: &Query) -> Result<Option<WorldAnswer>, NoMemory>
        ensures { IfOk result (Answers self.now query.now) }
    {
        answer_of(alloc, &self.world, &self.index, query)
    }

    /// Whether a question is valid, as `valid_question` says, by look-ups.
    pub fn is_valid(
        &self,
        alloc: Global,
        recursion_limit: u8,
        ns_recursion_limit: u8,
        query: &Query,
    ) -> Result<bool, NoMemory>
        ensures { IfOk result (λ valid. IsTrue valid ↔ IsValid self.now recursion_limit ns_recursion_limit query.now) }
    {
        is_valid(
            alloc,
            &self.world,
            &self.index,
            recursion_limit,
            ns_recursion_limit,
            query,
        )
    }

    /// The highest zone at or above a fully qualified name whose apex has more than `apex` labels.
    pub fn first_cut(
        &self,
        alloc: Global,
        apex: usize,
        name: &Name,
    ) -> Result<Option<&Zone>, NoMemory>
        requires { IsTrue name.now.fqdn }
        ensures { IfOk result (λ found. option_copied found ≡ first_cut self.now.zones apex name.now.labels) }
    {
        self.index.first_cut(alloc, &self.world, apex, name)
    }

    /// The records of a name, zone by zone.
    pub fn named(&self, name: &Name) -> &[Record]
        ensures { result.now ≡ filter (λ r. same_names r.name name.now) (all_records self.now.zones) }
    {
        self.index.named(&self.world, name)
    }

    /// Whether the address is a host that serves the zone whose apex has these labels.
    pub fn serves(&self, ip: IpAddr, apex: &[Label]) -> bool
        ensures { result ≡ serves self.now ip apex.now }
    {
        match self.index.host(&self.world, ip) {
            None => false,
            Some(host) => zone_among(self.world.zones.items(), host.zones.items(), apex).is_some(),
        }
    }
}
