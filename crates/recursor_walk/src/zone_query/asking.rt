//! A question at the servers of a zone: what the cache has for it comes first, then it is asked at all of
//! them.
ghost use Rattle.std.specs.Prelude.{◌≡◌, ◌<◌, ℕ, Err, IfOk, IsSome, OnOk, OnErr};
ghost use Rattle.walk_lookup.specs.LogView.{LogView};
ghost use Rattle.walk_tables.specs.Lookup.{want_of, want_after};
ghost use Rattle.walk_tables.specs.Taking.{awaited_by, IfAwaits};
ghost use Rattle.walk_lookup.specs.PendingLookup.{ServersForQuery};
ghost use Rattle.walk_tables.specs.Pools.{PoolsHold, StepGoes, IsStepAt, given_so_far, GivesNext};
ghost use Rattle.recursor_walk.specs.ZoneQuery.{ZoneQueryHolds, LastHolds, LastComes, HasFound, SameSite, steps, LeavesFewer};
ghost use Rattle.recursor_walk.specs.SourcedVerdict.{Answers, ReadsAt, from_cache, answerable};
ghost use Rattle.recursor_walk.specs.Replies.{RepliesSo, RepliesWith, reply_with};
ghost use Rattle.walk_tables.specs.declared.lookup.QueryStep.TheVariants as want;

use crate::zone_query::sourced_verdict::{SourcedVerdict, answerable, from_cache};
use dns_core::{DnsRequest, Ips, Name, NetError, NoMemory, Numbers, Query, Question, in_box};
use recursor_types::{RecursorError, Reply};
use resolution::Verdict;
use resolver_cache::ResponseCache;
use server_core::Tick;
use std::alloc::Global;
use std::mem;
use walk_lookup::LookupResult;
use walk_response::{outcome_of, reply_by};
use walk_tables::{Lookup, Pools, PoolsStep};

/// A lookup at the servers of a zone.
#[derive(Drop)]
pub struct ZoneQuery {
    pub zone: Name,
    pub servers: Ips,
    pub lookup: Lookup,
}

/// Answers a question with what counts for it, less the DNSSEC records that it does not want.
pub fn answer_with(
    alloc: Global,
    question: &Question,
    counted: SourcedVerdict,
) -> Result<Box<Reply>, NoMemory>
    ensures gives { IfOk result (λ reply. reply.value ≡ reply_with question.now counted) }
    ensures holds { (view : LogView) (asked_at : ℕ) → Answers view asked_at question.now.query counted.entry counted.verdict
        → RepliesSo view asked_at question.now result }
{
    let SourcedVerdict { entry, verdict } = counted;
    let outcome = outcome_of(alloc, question, verdict)?;
    reply_by(alloc, entry, outcome)
}

impl ZoneQuery {
    /// A question at these servers of a zone, in the cache first.
    pub fn new(alloc: Global, zone: Name, servers: Ips, query: Query) -> ZoneQuery
        ensures steps { steps result ≡ 6 }
        ensures is { (result.zone ≡ zone) × (result.servers ≡ servers) × (result.lookup.query ≡ query) }
        ensures holds { (view : LogView) (asked_at : ℕ) → ServersForQuery view query zone servers → ZoneQueryHolds view asked_at result }
    {
        ZoneQuery {
            zone,
            servers,
            lookup: Lookup::new(alloc, query),
        }
    }

    /// The lookup begins at all servers of the zone.
    pub fn send(
        &mut self,
        alloc: Global,
        pools: &mut Pools,
        request: DnsRequest,
        tick: Tick,
    ) -> Result<(), NoMemory>
        requires want { want_of self.old.lookup.ask ≡ want.Begin }
        requires asks { request.query ≡ self.old.lookup.query }
        ensures falls { OnOk result (steps self.new < steps self.old) }
        ensures err { OnErr result (self.new ≡ self.old) }
        ensures given { given_so_far pools.new ≡ given_so_far pools.old }
        ensures same { SameSite self.old self.new }
        ensures holds { (view : LogView) (asked_at : ℕ) → tick.now ≡ view.moment → PoolsHold view pools.old
            → ZoneQueryHolds view asked_at self.old → ZoneQueryHolds view asked_at self.new × PoolsHold view pools.new }
    {
        let ips = self.servers.items();
        self.lookup
            .send(alloc, pools, &self.zone, ips, request, tick)
    }

    /// What the lookup has next: an order with its number, one that it waits for, or its answer.
    pub fn step(
        &mut self,
        alloc: Global,
        pools: &mut Pools,
        begun: u64,
        since: u64,
        tick: Tick,
    ) -> Result<PoolsStep, NoMemory>
        requires { want_of self.old.lookup.ask ≡ want.Step }
        ensures wants { IfOk result (λ stepped. want_of self.new.lookup.ask ≡ want_after stepped) }
        ensures given { GivesNext (given_so_far pools.old) (given_so_far pools.new) result }
        ensures same { SameSite self.old self.new }
        ensures holds { (view : LogView) → IsStepAt view since tick → PoolsHold view pools.old
            → ZoneQueryHolds view begun self.old → ZoneQueryHolds view begun self.new × PoolsHold view pools.new }
        ensures goes { (view : LogView) → IsStepAt view since tick → PoolsHold view pools.old → IfOk result (StepGoes view) }
        ensures waits { IfOk result (IfAwaits (awaited_by pools.new self.new.lookup)) }
    {
        self.lookup
            .step(alloc, pools, &self.zone, begun, since, tick)
    }

    /// Answers the question with what the cache has for it, where this may be answered; else the servers
    /// are to be asked.
    pub fn recall(
        &mut self,
        alloc: Global,
        question: &Question,
        cache: &ResponseCache,
        now: u64,
    ) -> Result<Option<Box<Reply>>, NoMemory>
        requires { want_of self.old.lookup.ask ≡ want.Recall }
        ensures falls { IfOk result (LeavesFewer self.old self.new) }
        ensures holds { (view : LogView) (asked_at : ℕ) → ReadsAt view asked_at now cache.now
            → LastHolds view asked_at question.now.query self.old → IfOk result (LastComes view asked_at question.now self.new) }
        ensures answers { IfOk result (RepliesWith question.now (answerable (from_cache cache.now self.old.lookup.query now))) }
    {
        let counted = from_cache(alloc, cache, &self.lookup.query, now)?;
        match answerable(counted) {
            Some(counted) => Ok(Some(answer_with(alloc, question, counted)?)),
            None => {
                self.lookup.begin();
                Ok(None)
            }
        }
    }

    /// The reply by what was told to the lookup of the question.
    pub fn hear(
        &mut self,
        alloc: Global,
        question: &Question,
    ) -> Result<Option<Box<Reply>>, NoMemory>
        requires { want_of self.old.lookup.ask ≡ want.Hear }
        ensures holds { (view : LogView) (asked_at : ℕ) → LastHolds view asked_at question.now.query self.old → IfOk result (LastComes view asked_at question.now self.new) }
        ensures answers { IfOk result IsSome }
    {
        let found = self.lookup.hear();
        Ok(Some(self.conclude(alloc, question, found)?))
    }

    /// The reply by what the lookup came to.
    fn conclude(
        &mut self,
        alloc: Global,
        question: &Question,
        found: LookupResult,
    ) -> Result<Box<Reply>, NoMemory>
        ensures { (view : LogView) (asked_at : ℕ) → HasFound view asked_at question.now.query self.old found → RepliesSo view asked_at question.now result }
    {
        match found {
            LookupResult::Told { entry, verdict } => self.answer(alloc, question, entry, verdict),
            LookupResult::Error(error) => self.failed(alloc, error),
        }
    }

    /// The reply by a verdict, told by an entry.
    fn answer(
        &mut self,
        alloc: Global,
        question: &Question,
        entry: u64,
        verdict: Result<Verdict, NetError>,
    ) -> Result<Box<Reply>, NoMemory>
        ensures { (view : LogView) (asked_at : ℕ) → HasFound view asked_at question.now.query self.old (LookupResult.Told entry verdict) → RepliesSo view asked_at question.now result }
    {
        match verdict {
            Ok(verdict) => answer_with(alloc, question, SourcedVerdict { entry, verdict }),
            Err(error) => self.failed(alloc, error),
        }
    }

    /// The reply of a lookup that failed, with the entries by which its sends ended.
    fn failed(&mut self, alloc: Global, error: NetError) -> Result<Box<Reply>, NoMemory>
        ensures { IfOk result (λ reply. reply.value ≡ record { outcome = Err (RecursorError.Net error); grounds = self.old.lookup.ends }) }
    {
        let grounds = mem::replace(&mut self.lookup.ends, Numbers::empty(alloc));
        let reply = Reply {
            outcome: Err(RecursorError::Net(error)),
            grounds,
        };
        in_box(alloc, reply)
    }
}
