//! One question under way, answered, or ended.
ghost use Rattle.std.specs.Prelude.{◌≡◌, ◌≤◌, ◌<◌, ◌↔◌, ℕ, true, IfOk, IfSome, IsSome, IsErr, OnOk, OnErr, option_copied};
ghost use Rattle.walk_lookup.specs.LogView.{LogView};
ghost use Rattle.walk_lookup.specs.Remembered.{CacheHolds};
ghost use Rattle.walk_tables.specs.Taking.{Leaves, IfAwaits};
ghost use Rattle.walk_tables.specs.Pools.{PoolsHold, StepGoes, IsStepAt, given_so_far, GivesNext};
ghost use Rattle.recursor_walk.specs.SourcedVerdict.{ReadsAt, from_cache, answerable};
ghost use Rattle.recursor_question.specs.Resolving.{want_of, state_steps, steps, open_of, asking_of, IsWalking, IsUnder, IsWalked, IsSettled, IsDone, IsOpen, StaysOpen, AsksOn, SameBegun, AsksFor, StepsOn, IsAnswered, IsHeeded, IsHeard};
ghost use Rattle.recursor_question.specs.Resolved.{StandsSo, StateHolds, StateComes, AnswerComes, ResolutionHolds};
ghost use Rattle.recursor_walk.specs.Walk.{begin_steps};
ghost use Rattle.recursor_walk.specs.Way.{HasRoots, FiltersBy};
ghost use Rattle.walk_tables.specs.declared.lookup.QueryStep.TheVariants as want;

use crate::short_way::cached_answer;
use dns_core::{DnsRequest, Ips, Name, NoMemory, Question, TryClone, in_box};
use recursor_types::Reply;
use recursor_walk::{Walk, WalkOutcome, ZoneQuery, answer_with, answerable, from_cache};
use resolver_cache::ResponseCache;
use resolver_settings::AccessControlSet;
use server_core::Tick;
use std::alloc::Global;
use std::mem;
use walk_response::walked_name;
use walk_tables::{Pools, PoolsStep, QueryStep};

/// Not begun, on the walk to its servers, asked at these, answered, or ended.
#[derive(Drop)]
pub enum State {
    New,
    Walking(Box<Walk>),
    Asking(Box<ZoneQuery>),
    Done(Box<Reply>),
    Ended,
}

/// What a resolution needs next: to set out, a step of a send, or that its reply is taken.
#[derive(Clone, Copy)]
pub enum NextStep {
    SetOut,
    Send(QueryStep),
    Reply,
    Nothing,
}

/// A question, the moment at which it began, in microseconds, and where it stands.
pub struct Resolution {
    pub question: Question,
    pub begun: u64,
    pub state: State,
}

impl Drop for Resolution {
    fn drop(self) {
        let Resolution {
            question: _,
            begun: _,
            state: _,
        } = self;
    }
}

/// Where a question stands whose walk begins at the roots. The root itself is theirs.
fn begun_walk(alloc: Global, question: &Question, roots: &Ips) -> Result<State, NoMemory>
    ensures falls { IfOk result (λ state. state_steps question.now.query state < begin_steps question.now.query) }
    ensures holds { (view : LogView) (asked_at : ℕ) → question.now.query.name.fqdn ≡ true → HasRoots view roots.now
        → StandsSo view asked_at question.now result }
    ensures under { IfOk result IsUnder }
{
    let name = walked_name(alloc, &question.query)?;
    let servers = roots.try_clone(alloc)?;
    if name.labels().is_empty() {
        let query = question.query.try_clone(alloc)?;
        let asking = ZoneQuery::new(alloc, Name::root(alloc), servers, query);
        return Ok(State::Asking(in_box(alloc, asking)?));
    }
    let walk = Walk::new(alloc, name, servers)?;
    Ok(State::Walking(in_box(alloc, walk)?))
}

/// Where a question stands that begins: it is answered with what the cache has for it, where this may
/// be answered, or its walk begins.
fn begun(
    alloc: Global,
    question: &Question,
    roots: &Ips,
    cache: &ResponseCache,
    now: u64,
) -> Result<State, NoMemory>
    ensures falls { IfOk result (λ state. state_steps question.now.query state < begin_steps question.now.query) }
    ensures holds { (view : LogView) (asked_at : ℕ) → question.now.query.name.fqdn ≡ true → HasRoots view roots.now
        → ReadsAt view asked_at now cache.now → StandsSo view asked_at question.now result }
    ensures answers { IfOk result (IsAnswered question.now (answerable (from_cache cache.now question.now.query now))) }
{
    if let Some(reply) = cached_answer(alloc, cache, question, now)? {
        return Ok(State::Done(reply));
    }
    let counted = from_cache(alloc, cache, &question.query, now)?;
    match answerable(counted) {
        Some(counted) => Ok(State::Done(answer_with(alloc, question, counted)?)),
        None => begun_walk(alloc, question, roots),
    }
}

impl State {
    /// What is asked now, and where.
    pub(crate) fn asking(&self) -> Option<&ZoneQuery>
        ensures { option_copied result ≡ asking_of self.now }
    {
        match self {
            State::Walking(walk) => Some(&walk.asking),
            State::Asking(asking) => Some(&**asking),
            _ => None,
        }
    }
}

impl Resolution {
    /// A question that begins. Its name is fully qualified.
    pub fn begin(question: Question, now: u64) -> Resolution
        requires { question.query.name.fqdn ≡ true }
        ensures holds { (view : LogView) → now ≤ view.moment → ResolutionHolds view result }
        ensures begun { (result.question ≡ question) × (result.begun ≡ now) }
        ensures new { result.state ≡ State.New }
    {
        Resolution {
            question,
            begun: now,
            state: State::New,
        }
    }

    pub fn need(&self) -> NextStep
        ensures { result ≡ want_of self.now }
    {
        match &self.state {
            State::New => NextStep::SetOut,
            State::Walking(walk) => NextStep::Send(walk.asking.lookup.want()),
            State::Asking(asking) => NextStep::Send(asking.lookup.want()),
            State::Done(_) => NextStep::Reply,
            State::Ended => NextStep::Nothing,
        }
    }

    /// The number of the order that it waits for.
    pub fn open_order(&self, pools: &Pools) -> Option<u64>
        ensures { result ≡ open_of pools.now self.now }
    {
        match self.state.asking() {
            Some(asking) => asking.lookup.open_order(pools),
            None => None,
        }
    }

    /// Is answered with what the cache has for the question, where this may be answered; else its walk
    /// begins at the roots. Where memory runs out it has ended.
    pub fn set_out(
        &mut self,
        alloc: Global,
        roots: &Ips,
        cache: &ResponseCache,
        now: u64,
    ) -> Result<(), NoMemory>
        requires { want_of self.old ≡ NextStep.SetOut }
        ensures falls { steps self.new < steps self.old }
        ensures begun { SameBegun self.old self.new }
        ensures holds { (view : LogView) → now ≡ view.moment → HasRoots view roots.now → CacheHolds view cache.now
            → ResolutionHolds view self.old → ResolutionHolds view self.new }
        ensures answers { IfOk result (λ x. IsAnswered self.old.question (answerable (from_cache cache.now self.old.question.query now)) self.new.state) }
        ensures err { OnErr result (self.new.state ≡ State.Ended) }
    {
        self.state = State::Ended;
        let state = begun(alloc, &self.question, roots, cache, now)?;
        self.state = state;
        Ok(())
    }

    /// The walk has come to the servers of the name: the question itself is to be asked there.
    fn arrive(&mut self, alloc: Global) -> Result<(), NoMemory>
        requires { IsWalking self.old.state }
        ensures falls { state_steps self.old.question.query self.new.state ≤ 6 }
        ensures ended { StaysOpen result self.new.state }
        ensures begun { SameBegun self.old self.new }
        ensures holds { (view : LogView) (asked_at : ℕ) → StateComes view asked_at self.old.question self.old.state WalkOutcome.ServersReached
            → StateHolds view asked_at self.old.question self.new.state }
    {
        let State::Walking(walk) = mem::replace(&mut self.state, State::Ended) else {
            unreachable!()
        };
        let query = self.question.query.try_clone(alloc)?;
        let asking = Box::into_inner(walk).into_asking(alloc, query);
        self.state = State::Asking(in_box(alloc, asking)?);
        Ok(())
    }

    /// Goes where its walk has gone; where memory runs out it has ended.
    fn follow(&mut self, alloc: Global, came: Result<WalkOutcome, NoMemory>) -> Result<(), NoMemory>
        requires { IsWalking self.old.state }
        ensures steps { IsWalked self.old.question.query came self.old.state self.new.state }
        ensures ended { StaysOpen result self.new.state }
        ensures begun { SameBegun self.old self.new }
        ensures holds { (view : LogView) (asked_at : ℕ) → IfOk came (StateComes view asked_at self.old.question self.old.state)
            → StateHolds view asked_at self.old.question self.new.state }
    {
        match came {
            Ok(WalkOutcome::Continue) => Ok(()),
            Ok(WalkOutcome::ServersReached) => self.arrive(alloc),
            Ok(WalkOutcome::Reply(reply)) => {
                self.state = State::Done(reply);
                Ok(())
            }
            Err(_) => {
                self.state = State::Ended;
                Err(NoMemory)
            }
        }
    }

    /// Goes on, or has this reply; where memory runs out it has ended.
    fn settle(&mut self, came: Result<Option<Box<Reply>>, NoMemory>) -> Result<(), NoMemory>
        ensures state { IsSettled came self.old.state self.new.state }
        ensures result { IsErr result ↔ IsErr came }
        ensures ended { IsOpen self.old.state → StaysOpen result self.new.state }
        ensures done { IfOk came IsSome → IfOk result (λ x. IsDone self.new.state) }
        ensures begun { SameBegun self.old self.new }
        ensures holds { (view : LogView) (asked_at : ℕ) → IfOk came (AnswerComes view asked_at self.old.question self.old.state)
            → StateHolds view asked_at self.old.question self.new.state }
    {
        match came {
            Ok(None) => Ok(()),
            Ok(Some(reply)) => {
                self.state = State::Done(reply);
                Ok(())
            }
            Err(_) => {
                self.state = State::Ended;
                Err(NoMemory)
            }
        }
    }

    /// Goes by what the cache has for the present lookup. Where memory runs out it has ended.
    pub fn recall(
        &mut self,
        alloc: Global,
        filter: &AccessControlSet,
        cache: &ResponseCache,
        now: u64,
    ) -> Result<(), NoMemory>
        requires { want_of self.old ≡ NextStep.Send want.Recall }
        ensures falls { steps self.new < steps self.old }
        ensures ended { StaysOpen result self.new.state }
        ensures begun { SameBegun self.old self.new }
        ensures holds { (view : LogView) → now ≡ view.moment → FiltersBy view filter.now → CacheHolds view cache.now
            → ResolutionHolds view self.old → ResolutionHolds view self.new }
        ensures heeds { IfOk result (λ x. IsHeeded cache.now now self.old.question self.old.state self.new.state) }
    {
        match &mut self.state {
            State::Walking(walk) => {
                let came = walk.recall(alloc, filter, cache, now);
                self.follow(alloc, came)
            }
            State::Asking(asking) => {
                let came = asking.recall(alloc, &self.question, cache, now);
                self.settle(came)
            }
            _ => Ok(()),
        }
    }

    /// Hears what came of its order. Where memory runs out it has ended.
    pub fn hear(&mut self, alloc: Global, filter: &AccessControlSet) -> Result<(), NoMemory>
        requires { want_of self.old ≡ NextStep.Send want.Hear }
        ensures falls { steps self.new < steps self.old }
        ensures ended { StaysOpen result self.new.state }
        ensures begun { SameBegun self.old self.new }
        ensures holds { (view : LogView) → FiltersBy view filter.now
            → ResolutionHolds view self.old → ResolutionHolds view self.new }
        ensures hears { IfOk result (λ x. IsHeard self.old.state self.new.state) }
    {
        match &mut self.state {
            State::Walking(walk) => {
                let came = walk.hear(alloc, filter);
                self.follow(alloc, came)
            }
            State::Asking(asking) => {
                let came = asking.hear(alloc, &self.question);
                self.settle(came)
            }
            _ => Ok(()),
        }
    }

    /// The present lookup begins at the servers of its zone, with a request of its question.
    pub fn send(
        &mut self,
        alloc: Global,
        pools: &mut Pools,
        request: DnsRequest,
        tick: Tick,
    ) -> Result<(), NoMemory>
        requires want { want_of self.old ≡ NextStep.Send want.Begin }
        requires asks { AsksFor request self.old.state }
        ensures falls { OnOk result (steps self.new < steps self.old) }
        ensures same { AsksOn result self.old self.new }
        ensures given { given_so_far pools.new ≡ given_so_far pools.old }
        ensures begun { SameBegun self.old self.new }
        ensures holds { (view : LogView) → tick.now ≡ view.moment → PoolsHold view pools.old
            → ResolutionHolds view self.old → ResolutionHolds view self.new × PoolsHold view pools.new }
    {
        match &mut self.state {
            State::Walking(walk) => walk.asking.send(alloc, pools, request, tick),
            State::Asking(asking) => asking.send(alloc, pools, request, tick),
            _ => unreachable!(),
        }
    }

    /// What the present lookup has next: an order with its number, one that it waits for, or its answer.
    pub fn step(
        &mut self,
        alloc: Global,
        pools: &mut Pools,
        since: u64,
        tick: Tick,
    ) -> Result<PoolsStep, NoMemory>
        requires { want_of self.old ≡ NextStep.Send want.Step }
        ensures falls { IfOk result (StepsOn self.old self.new) }
        ensures given { GivesNext (given_so_far pools.old) (given_so_far pools.new) result }
        ensures begun { SameBegun self.old self.new }
        ensures holds { (view : LogView) → IsStepAt view since tick → PoolsHold view pools.old
            → ResolutionHolds view self.old → ResolutionHolds view self.new × PoolsHold view pools.new }
        ensures goes { (view : LogView) → IsStepAt view since tick → PoolsHold view pools.old → IfOk result (StepGoes view) }
        ensures waits { IfOk result (IfAwaits (open_of pools.new self.new)) }
    {
        let begun = self.begun;
        match &mut self.state {
            State::Walking(walk) => walk.asking.step(alloc, pools, begun, since, tick),
            State::Asking(asking) => asking.step(alloc, pools, begun, since, tick),
            _ => unreachable!(),
        }
    }

    /// Ends without a reply: its lookup is left.
    pub fn leave(mut self, pools: &mut Pools)
        ensures left { IfSome (asking_of self.state) (λ asking. Leaves asking.lookup.ask pools.old pools.new) }
        ensures given { given_so_far pools.new ≡ given_so_far pools.old }
        ensures holds { (view : LogView) → PoolsHold view pools.old → PoolsHold view pools.new }
    {
        match &mut self.state {
            State::Walking(walk) => walk.asking.lookup.leave(pools),
            State::Asking(asking) => asking.lookup.leave(pools),
            _ => {}
        }
    }
}
