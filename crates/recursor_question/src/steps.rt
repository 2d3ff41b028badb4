//! What a question has next, for whoever steps it: an order, one that it waits for, or its reply.
ghost use Rattle.std.specs.Prelude.{◌≡◌, ◌≤◌, Ok, IfOk, IfSome};
ghost use Rattle.walk_lookup.specs.LogView.{LogView};
ghost use Rattle.walk_tables.specs.Pools.{PoolsHold, IsStepAt, given_so_far};
ghost use Rattle.recursor_question.specs.Resolving.{want_of, SameBegun, IsUnder, IsDoneWith};
ghost use Rattle.recursor_question.specs.Resolved.{ResolutionHolds};
ghost use Rattle.recursor_walk.specs.SourcedVerdict.{from_cache, answerable};
ghost use Rattle.recursor_walk.specs.Replies.{reply_with};
ghost use Rattle.recursor_question.specs.Steps.{IsRequestOf, StepIs, GoesOn, Gives, SteppedBy, GoesWell, StepsWell, SetsOut, HandsOut, GivesReply};
ghost use Rattle.recursor_types.specs.declared.reply.Reply.{Reply};
ghost use Rattle.walk_tables.specs.declared.pools.Pools.{Pools};
ghost use Rattle.walk_tables.specs.declared.lookup.QueryStep.TheVariants as want;

use crate::resolving::{NextStep, Resolution, State};
use dns_core::{DnsRequest, NoMemory, TryClone, in_box};
use recursor_types::{Policy, Reply};
use resolver_cache::ResponseCache;
use server_core::{Order, Tick};
use std::alloc::Global;
use std::mem;
use walk_lookup::request_options;
use walk_tables::{Pools, PoolsStep, QueryStep};

/// What a resolution has for whoever steps it.
#[derive(Drop)]
pub enum Step {
    Order { number: u64, order: Box<Order> },
    Waiting { number: u64 },
    Done(Box<Reply>),
    Ended,
}

/// A step inside the resolution, after which another is due, or one for whoever steps it.
#[derive(Drop)]
pub enum Progress {
    Again,
    Step(Step),
}

impl Resolution {
    /// The request of what it asks now.
    fn request(&self, alloc: Global, policy: &Policy) -> Result<DnsRequest, NoMemory>
        requires { IsUnder self.now.state }
        ensures { IfOk result (λ request. IsRequestOf request policy.now self.now.state) }
    {
        match self.state.asking() {
            Some(asking) => Ok(DnsRequest {
                query: asking.lookup.query.try_clone(alloc)?,
                options: request_options(&policy.resolver),
            }),
            None => unreachable!(),
        }
    }

    /// The present lookup begins at the servers of its zone.
    fn begin_asking(
        &mut self,
        alloc: Global,
        policy: &Policy,
        pools: &mut Pools,
        tick: Tick,
    ) -> Result<Progress, NoMemory>
        requires { want_of self.old ≡ NextStep.Send want.Begin }
        ensures goes { GoesOn pools.old pools.new self.old self.new result }
        ensures begun { SameBegun self.old self.new }
        ensures holds { (view : LogView) → tick.now ≡ view.moment → PoolsHold view pools.old
            → ResolutionHolds view self.old → GoesWell view self.old self.new pools.new result }
    {
        let request = self.request(alloc, policy)?;
        self.send(alloc, pools, request, tick)?;
        Ok(Progress::Again)
    }

    /// Gives the next order of the present lookup, or the one that it waits for; or goes on where it has
    /// its answer.
    fn give_order(
        &mut self,
        alloc: Global,
        pools: &mut Pools,
        since: u64,
        tick: Tick,
    ) -> Result<Progress, NoMemory>
        requires { want_of self.old ≡ NextStep.Send want.Step }
        ensures goes { GoesOn pools.old pools.new self.old self.new result }
        ensures begun { SameBegun self.old self.new }
        ensures holds { (view : LogView) → IsStepAt view since tick → PoolsHold view pools.old
            → ResolutionHolds view self.old → GoesWell view self.old self.new pools.new result }
    {
        match self.step(alloc, pools, since, tick)? {
            PoolsStep::Order { number, order } => {
                let order = in_box(alloc, order)?;
                Ok(Progress::Step(Step::Order { number, order }))
            }
            PoolsStep::Waiting { number } => Ok(Progress::Step(Step::Waiting { number })),
            PoolsStep::Done => Ok(Progress::Again),
        }
    }

    /// Its reply, after which it has ended.
    fn take_reply(&mut self) -> Progress
        requires { want_of self.old ≡ NextStep.Reply }
        ensures goes { (pools : Pools) → GoesOn pools pools self.old self.new (Ok result) }
        ensures begun { SameBegun self.old self.new }
        ensures holds { (view : LogView) → ResolutionHolds view self.old
            → ResolutionHolds view self.new × Gives view self.old result }
        ensures replies { (reply : Reply) → IsDoneWith reply self.old.state → GivesReply reply result }
    {
        match mem::replace(&mut self.state, State::Ended) {
            State::Done(reply) => Progress::Step(Step::Done(reply)),
            _ => unreachable!(),
        }
    }

    /// One step of what it asks.
    fn send_on(
        &mut self,
        alloc: Global,
        policy: &Policy,
        cache: &ResponseCache,
        pools: &mut Pools,
        want: QueryStep,
        since: u64,
        tick: Tick,
    ) -> Result<Progress, NoMemory>
        requires { want_of self.old ≡ NextStep.Send want }
        ensures goes { GoesOn pools.old pools.new self.old self.new result }
        ensures begun { SameBegun self.old self.new }
        ensures holds { (view : LogView) → SteppedBy view policy.now cache.now since tick → PoolsHold view pools.old
            → ResolutionHolds view self.old → GoesWell view self.old self.new pools.new result }
    {
        match want {
            QueryStep::Recall => {
                self.recall(alloc, &policy.server_filter, cache, tick.now)?;
                Ok(Progress::Again)
            }
            QueryStep::Begin => self.begin_asking(alloc, policy, pools, tick),
            QueryStep::Step => self.give_order(alloc, pools, since, tick),
            QueryStep::Hear => {
                self.hear(alloc, &policy.server_filter)?;
                Ok(Progress::Again)
            }
        }
    }

    fn step_on(
        &mut self,
        alloc: Global,
        policy: &Policy,
        cache: &ResponseCache,
        pools: &mut Pools,
        since: u64,
        tick: Tick,
    ) -> Result<Progress, NoMemory>
        ensures goes { GoesOn pools.old pools.new self.old self.new result }
        ensures begun { SameBegun self.old self.new }
        ensures holds { (view : LogView) → SteppedBy view policy.now cache.now since tick → PoolsHold view pools.old
            → ResolutionHolds view self.old → GoesWell view self.old self.new pools.new result }
        ensures sets_out { want_of self.old ≡ NextStep.SetOut
            → IfOk result (SetsOut self.old.question (answerable (from_cache cache.now self.old.question.query tick.now)) self.new.state) }
        ensures replies { (reply : Reply) → IsDoneWith reply self.old.state → IfOk result (GivesReply reply) }
    {
        match self.need() {
            NextStep::SetOut => {
                self.set_out(alloc, &policy.roots, cache, tick.now)?;
                Ok(Progress::Again)
            }
            NextStep::Send(want) => self.send_on(alloc, policy, cache, pools, want, since, tick),
            NextStep::Reply => Ok(self.take_reply()),
            NextStep::Nothing => Ok(Progress::Step(Step::Ended)),
        }
    }

    /// What it has next, at the moment of the tick, after the greatest entry so far: an order, one that it
    /// waits for, its reply once, or nothing more. It is lent what the recursor is set to, the cache, and
    /// the pools. One that sets out is answered with what the cache has for it, where that may be answered;
    /// the reply of one that has it is handed out as it is.
    pub fn next(
        &mut self,
        alloc: Global,
        policy: &Policy,
        cache: &ResponseCache,
        pools: &mut Pools,
        since: u64,
        tick: Tick,
    ) -> Result<Step, NoMemory>
        ensures steps { IfOk result (StepIs pools.old pools.new self.old self.new) }
        ensures given { given_so_far pools.old ≤ given_so_far pools.new }
        ensures begun { SameBegun self.old self.new }
        ensures holds { (view : LogView) → SteppedBy view policy.now cache.now since tick → PoolsHold view pools.old
            → ResolutionHolds view self.old → StepsWell view self.old self.new pools.new result }
        ensures recalls { want_of self.old ≡ NextStep.SetOut → IfSome (answerable (from_cache cache.now self.old.question.query tick.now))
            (λ counted. IfOk result (HandsOut (reply_with self.old.question counted))) }
        ensures replies { (reply : Reply) → IsDoneWith reply self.old.state → IfOk result (HandsOut reply) }
    {
        'steps: loop {
            match self.step_on(alloc, policy, cache, pools, since, tick)? {
                Progress::Again => {}
                Progress::Step(step) => return Ok(step),
            }
        }
    }
}
