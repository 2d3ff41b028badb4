//! One question put to the servers of a zone.
ghost use Rattle.std.specs.Prelude.{◌≡◌, ◌<◌, ℕ, IfOk, IsTrue, MatchResult};
ghost use Rattle.dns_core.specs.Name.{DomainName};
ghost use Rattle.resolution.specs.Names.{is_above, walk};
ghost use Rattle.walk_tables.specs.Taking.{awaited_by, Leaves, IfAwaits};
ghost use Rattle.walk_lookup.specs.LogView.{LogView};
ghost use Rattle.walk_tables.specs.Pools.{PoolsHold, StepGoes, IsStepAt, given_so_far, GivesNext};
ghost use Rattle.walk_lookup.specs.PendingLookup.{ServersForQuery};
ghost use Rattle.walk_tables.specs.Lookup.{want_of, want_after, steps, LookupHolds};
ghost use Rattle.walk_lookup.specs.LookupResult.{FoundHolds};

use crate::pools::{Answer, Pools, PoolsStep};
use dns_core::{Boxed, DnsRequest, Name, NoMemory, Numbers, Query};
use server_core::Tick;
use server_pool::PoolLookup;
use std::alloc::Global;
use std::mem;
use std::net::IpAddr;
use walk_lookup::LookupResult;

/// Where a lookup stands. At first the cache was not looked at; then it is to begin, or is under way at
/// a pool; at last it came to something, which is to be heard.
#[derive(Drop)]
pub enum Phase {
    CheckCache,
    Unsent,
    InPool(PoolLookup),
    Answered(Boxed<LookupResult>),
}

/// What a lookup wants next: what the cache has, to begin at its servers, its next step there, or that
/// what it came to is heard.
#[derive(Clone, Copy)]
pub enum QueryStep {
    Recall,
    Begin,
    Step,
    Hear,
}

/// A lookup: its question, where it stands, and the entries by which its sends ended.
pub struct Lookup {
    pub query: Query,
    pub ask: Phase,
    pub ends: Numbers,
}

impl Drop for Lookup {
    fn drop(self) {
        let Lookup {
            query: _,
            ask: _,
            ends: _,
        } = self;
    }
}

impl Lookup {
    /// A lookup of a question, in the cache first.
    pub fn new(alloc: Global, query: Query) -> Lookup
        ensures steps { steps result ≡ 4 }
        ensures holds { (view : LogView) (asked_at : ℕ) (zone : DomainName)
            → IsTrue (is_above zone (walk query)) → LookupHolds view asked_at zone result }
        ensures query { result.query ≡ query }
    {
        Lookup {
            query,
            ask: Phase::CheckCache,
            ends: Numbers::empty(alloc),
        }
    }

    pub fn want(&self) -> QueryStep
        ensures { result ≡ want_of self.now.ask }
    {
        match &self.ask {
            Phase::CheckCache => QueryStep::Recall,
            Phase::Unsent => QueryStep::Begin,
            Phase::InPool(_) => QueryStep::Step,
            Phase::Answered(_) => QueryStep::Hear,
        }
    }

    /// The cache has nothing for the question.
    pub fn begin(&mut self)
        requires { want_of self.old.ask ≡ QueryStep.Recall }
        ensures falls { steps self.new < steps self.old }
        ensures holds { (view : LogView) (asked_at : ℕ) (zone : DomainName)
            → LookupHolds view asked_at zone self.old → LookupHolds view asked_at zone self.new }
        ensures query { self.new.query ≡ self.old.query }
    {
        self.ask = Phase::Unsent;
    }

    /// Begins at all servers of its zone, with a request of its question.
    pub fn send(
        &mut self,
        alloc: Global,
        pools: &mut Pools,
        zone: &Name,
        ips: &[IpAddr],
        request: DnsRequest,
        tick: Tick,
    ) -> Result<(), NoMemory>
        requires want { want_of self.old.ask ≡ QueryStep.Begin }
        requires asks { request.query ≡ self.old.query }
        ensures falls { MatchResult result (λ sent. steps self.new < steps self.old) (λ error. self.new ≡ self.old) }
        ensures given { given_so_far pools.new ≡ given_so_far pools.old }
        ensures holds { (view : LogView) (asked_at : ℕ)
            → LookupHolds view asked_at zone.now self.old → LookupHolds view asked_at zone.now self.new }
        ensures pools { (view : LogView) → tick.now ≡ view.moment → ServersForQuery view self.old.query zone.now ips.now → PoolsHold view pools.old → PoolsHold view pools.new }
        ensures query { self.new.query ≡ self.old.query }
    {
        let lookup = pools.begin(alloc, zone, ips, request, tick)?;
        self.ask = Phase::InPool(lookup);
        Ok(())
    }

    /// The number of the order that it waits for, which is open, if there is one.
    pub fn open_order(&self, pools: &Pools) -> Option<u64>
        ensures { result ≡ awaited_by pools.now self.now }
    {
        match &self.ask {
            Phase::InPool(lookup) => pools.awaited(lookup.number()),
            _ => None,
        }
    }

    /// Ends the interest in the lookup at its pool, if there is one.
    pub fn leave(&mut self, pools: &mut Pools)
        ensures pools { (view : LogView) → PoolsHold view pools.old → PoolsHold view pools.new }
        ensures given { given_so_far pools.new ≡ given_so_far pools.old }
        ensures same { (self.new.query ≡ self.old.query) × (self.new.ends ≡ self.old.ends) }
        ensures left { Leaves self.old.ask pools.old pools.new }
    {
        match mem::replace(&mut self.ask, Phase::Unsent) {
            Phase::InPool(lookup) => pools.leave(lookup),
            other => self.ask = other,
        }
    }

    /// What it has next at its pool: an order with its number, which no entry was put after, one that it
    /// waits for, or its answer, which it has taken then.
    pub fn step(
        &mut self,
        alloc: Global,
        pools: &mut Pools,
        zone: &Name,
        begun: u64,
        since: u64,
        tick: Tick,
    ) -> Result<PoolsStep, NoMemory>
        requires { want_of self.old.ask ≡ QueryStep.Step }
        ensures wants { IfOk result (λ stepped. want_of self.new.ask ≡ want_after stepped) }
        ensures given { GivesNext (given_so_far pools.old) (given_so_far pools.new) result }
        ensures holds { (view : LogView) → IsStepAt view since tick → PoolsHold view pools.old
            → LookupHolds view begun zone.now self.old → LookupHolds view begun zone.now self.new × PoolsHold view pools.new }
        ensures goes { (view : LogView) → IsStepAt view since tick → PoolsHold view pools.old → IfOk result (StepGoes view) }
        ensures waits { IfOk result (IfAwaits (awaited_by pools.new self.new)) }
        ensures query { self.new.query ≡ self.old.query }
    {
        let Phase::InPool(lookup) = &mut self.ask else {
            unreachable!()
        };
        match pools.next(alloc, lookup, since, tick)? {
            PoolsStep::Order { number, order } => Ok(PoolsStep::Order { number, order }),
            PoolsStep::Waiting { number } => Ok(PoolsStep::Waiting { number }),
            PoolsStep::Done => {
                let answer = pools.answer(alloc, lookup, &self.query, zone, begun)?;
                let Some(Answer { came, ends }) = answer else {
                    unreachable!()
                };
                self.ends = ends;
                self.leave(pools);
                self.ask = Phase::Answered(came);
                Ok(PoolsStep::Done)
            }
        }
    }

    /// Hears what came. It could begin once more then.
    pub fn hear(&mut self) -> LookupResult
        requires { want_of self.old.ask ≡ QueryStep.Hear }
        ensures hears { self.old.ask ≡ Phase.Answered result }
        ensures holds { (view : LogView) (asked_at : ℕ) (zone : DomainName)
            → LookupHolds view asked_at zone self.old → FoundHolds view asked_at zone self.new.query self.new.ends result }
        ensures query { self.new.query ≡ self.old.query }
    {
        match mem::replace(&mut self.ask, Phase::Unsent) {
            Phase::Answered(found) => found.into_inner(),
            _ => unreachable!(),
        }
    }
}
