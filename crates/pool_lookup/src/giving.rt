//! What a lookup does next: it gives an order, waits, or has its answer.
ghost use Rattle.std.specs.Prelude.{◌≡◌, ℕ, List, IfOk, OnOk, OnErr};
ghost use Rattle.std.specs.List.{position};
ghost use Rattle.server_core.specs.Servers.{Server};
ghost use Rattle.pool_lookup.specs.Attempts.{is_idle};
ghost use Rattle.pool_lookup.specs.Giving.{first_ready, first_idle, want_of, Gives, Halts, stepped_table};
ghost use Rattle.pool_lookup.specs.Holds.{IsSound, AreReached};
ghost use Rattle.pool_lookup.specs.Rounds.{started};

use crate::attempt::{Attempt, give_at};
use crate::lookup::{Lookup, State};
use dns_core::{Message, NetError, NoMemory, TryClone};
use pool_rules::PoolServer;
use server_core::{Order, PoolContext, ServerTable, Tick};
use std::alloc::Global;

/// What a lookup does next: it gives an order of the number that it was handed, waits for the outcome of
/// one that is open, or has its answer.
#[derive(Drop)]
pub enum LookupStep {
    Order(Order),
    Waiting,
    Done(Result<Message, NetError>),
}

/// What a lookup comes to next: the attempt at a place goes on, the first server of the round that is
/// left is asked, it backs off, waits for an order that is open, or tells its answer.
#[derive(Clone, Copy)]
pub enum Want {
    Resume { place: usize },
    Begin { candidate: PoolServer },
    Sleep { until: u64 },
    Wait,
    Tell,
}

/// A copy of an answer.
pub(crate) fn copy_of_answer(
    alloc: Global,
    answer: &Result<Message, NetError>,
) -> Result<Result<Message, NetError>, NoMemory>
    ensures { IfOk result (λ copy. copy ≡ answer.now) }
{
    match answer {
        Ok(message) => {
            let message = message.try_clone(alloc)?;
            Ok(Ok(message))
        }
        Err(error) => {
            let error = error.try_clone(alloc)?;
            Ok(Err(error))
        }
    }
}

impl Lookup {
    /// The place of the first attempt of which no order is open.
    fn idle_place(&self) -> Option<usize>
        ensures { result ≡ position is_idle self.now.attempts }
    {
        self.attempts.iter().position(|a| a.is_idle())
    }

    /// Where an order of each attempt is open, the next server of the round is asked, if one is left.
    fn want_ready(&self) -> Want
        ensures { result ≡ first_ready self.now.ready }
    {
        match self.ready.front() {
            Some(candidate) => Want::Begin {
                candidate: *candidate,
            },
            None => Want::Wait,
        }
    }

    /// What an asking lookup comes to next.
    fn want_attempt(&self) -> Want
        ensures { result ≡ first_idle self.now.attempts self.now.ready }
    {
        match self.idle_place() {
            Some(place) => Want::Resume { place },
            None => self.want_ready(),
        }
    }

    fn want(&self) -> Want
        ensures { result ≡ want_of self.now }
    {
        match &self.state {
            State::Asking => self.want_attempt(),
            State::BackingOff { until, order, .. } => match order {
                Some(_) => Want::Wait,
                None => Want::Sleep { until: *until },
            },
            State::Decided { .. } => Want::Tell,
        }
    }

    /// The attempt at a place goes on.
    fn resume(
        &mut self,
        alloc: Global,
        table: &mut ServerTable,
        cx: &mut PoolContext,
        place: usize,
        number: u64,
        tick: Tick,
    ) -> Result<LookupStep, NoMemory>
        requires want { want_of self.old ≡ Want.Resume place }
        requires can { IsSound self.old × AreReached table.old self.old }
        ensures gives { IfOk result (λ step. Gives number tick.now table.old self.old step self.new) }
        ensures table { OnOk result (table.new ≡ stepped_table self.old table.old) }
        ensures err { OnErr result (self.new ≡ self.old) }
        ensures halted { OnErr result (Halts self.old table.old table.new) }
        ensures context { cx.new ≡ cx.old }
    {
        let order = give_at(&mut self.attempts, alloc, table, cx, place, number, tick)?;
        Ok(LookupStep::Order(order))
    }

    /// The first server of the round is asked.
    fn ask_first(
        &mut self,
        alloc: Global,
        table: &mut ServerTable,
        cx: &mut PoolContext,
        candidate: PoolServer,
        number: u64,
        tick: Tick,
    ) -> Result<LookupStep, NoMemory>
        requires want { want_of self.old ≡ Want.Begin candidate }
        requires can { IsSound self.old × AreReached table.old self.old }
        ensures gives { IfOk result (λ step. Gives number tick.now table.old self.old step self.new) }
        ensures table { OnOk result (table.new ≡ stepped_table self.old table.old) }
        ensures err { OnErr result (self.new ≡ self.old) }
        ensures halted { OnErr result (Halts self.old table.old table.new) }
        ensures context { cx.new ≡ cx.old }
    {
        let request = self.request.try_clone(alloc)?;
        let mut attempt = Attempt::first(candidate, request, self.round_off);
        let order = attempt.give(alloc, table, cx, number, tick)?;
        let _first = self.ready.pop_front();
        self.attempts.push_reserved(attempt);
        Ok(LookupStep::Order(order))
    }

    /// It backs off under the order of a number.
    fn sleep(&mut self, number: u64) -> LookupStep
        requires { (until : ℕ) × (want_of self.old ≡ Want.Sleep until) }
        ensures { (now : ℕ) (table : List Server) → Gives number now table self.old result self.new }
    {
        match self.state {
            State::BackingOff { until, polls, .. } => {
                self.enter(State::BackingOff {
                    until,
                    order: Some(number),
                    polls,
                });
                LookupStep::Order(Order::Sleep { until })
            }
            _ => unreachable!(),
        }
    }

    /// A copy of its answer.
    fn tell(&self, alloc: Global) -> Result<LookupStep, NoMemory>
        requires { want_of self.now ≡ Want.Tell }
        ensures { (number now : ℕ) (table : List Server) → IfOk result (λ step. Gives number now table self.now step self.now) }
    {
        match &self.state {
            State::Decided { answer, .. } => {
                let answer = copy_of_answer(alloc, answer)?;
                Ok(LookupStep::Done(answer))
            }
            _ => unreachable!(),
        }
    }

    /// The step of a lookup whose round has begun.
    fn give(
        &mut self,
        alloc: Global,
        table: &mut ServerTable,
        cx: &mut PoolContext,
        number: u64,
        tick: Tick,
    ) -> Result<LookupStep, NoMemory>
        requires holds { IsSound self.old }
        requires reached { AreReached table.old self.old }
        ensures gives { IfOk result (λ step. Gives number tick.now table.old self.old step self.new) }
        ensures table { OnOk result (table.new ≡ stepped_table self.old table.old) }
        ensures err { OnErr result (self.new ≡ self.old) }
        ensures halted { OnErr result (Halts self.old table.old table.new) }
        ensures context { cx.new ≡ cx.old }
    {
        match self.want() {
            Want::Resume { place } => self.resume(alloc, table, cx, place, number, tick),
            Want::Begin { candidate } => self.ask_first(alloc, table, cx, candidate, number, tick),
            Want::Sleep { .. } => Ok(self.sleep(number)),
            Want::Wait => Ok(LookupStep::Waiting),
            Want::Tell => self.tell(alloc),
        }
    }

    /// The next step at a moment: a round begins, if it is due, and then an order is given under the
    /// number, if there is one. Out of memory the round has begun, and no order was given.
    pub fn next(
        &mut self,
        alloc: Global,
        table: &mut ServerTable,
        cx: &mut PoolContext,
        number: u64,
        tick: Tick,
    ) -> Result<LookupStep, NoMemory>
        requires holds { IsSound self.old }
        requires reached { AreReached table.old self.old }
        ensures gives { IfOk result (λ step. Gives number tick.now table.old (started tick.now self.old) step self.new) }
        ensures table { OnOk result (table.new ≡ stepped_table (started tick.now self.old) table.old) }
        ensures err { OnErr result (self.new ≡ started tick.now self.old) }
        ensures halted { OnErr result (Halts (started tick.now self.old) table.old table.new) }
        ensures context { cx.new ≡ cx.old }
    {
        self.start(tick.now);
        self.give(alloc, table, cx, number, tick)
    }
}
