//! The orders that are under way, each under its number, and how often each was polled.
ghost use Rattle.std.specs.Prelude.{◌≡◌, ◌≤◌, ℕ, List, IsSome, IfOk, OnOk, option_copied};
ghost use Rattle.order_carrier.specs.Carrying.{CarrierHolds, CarriesOn};
ghost use Rattle.order_carrier.specs.GivingUp.{give_up_entry};
ghost use Rattle.order_carrier.specs.Growing.{TellsThat, with_entries};
ghost use Rattle.order_carrier.specs.InFlight.{InFlightHolds, CanRun, InFlightMoves, GoesRight, StartsRight, GoesNowhere, held_at, polls_left, sent_by, still_awaited, HasTold};
ghost use Rattle.order_carrier.specs.InFlight.{IsCounted, IsStarted, Grows, IsPolled, Keeps, IsForgotten};

use crate::carrier::Carrier;
use dns_core::{ConnectionProvider, NoMemory};
use server_core::{Order, Outcome, SentBy, Tick};
use std::alloc::Global;
use std::collections::BTreeMap;

/// An order that was given, and how often it was polled.
#[derive(Drop)]
pub struct InFlightOrder {
    pub order: Box<Order>,
    pub polls: u32,
}

/// What carries orders out, and the orders that it was given and that were neither closed nor given up.
pub struct InFlight<P: ConnectionProvider> {
    pub(crate) carrier: Carrier<P>,
    pub(crate) orders: BTreeMap<u64, InFlightOrder>,
}

impl<P: ConnectionProvider> Drop for InFlight<P> {
    fn drop(self) {
        let InFlight {
            carrier: _,
            orders: _,
        } = self;
    }
}

impl<P: ConnectionProvider> InFlight<P> {
    /// Over a carrier, before any order was given.
    pub fn new(alloc: Global, carrier: Carrier<P>) -> InFlight<P>
        ensures carrier { result.carrier ≡ carrier }
        ensures holds { CarrierHolds P.ConnectionProvider carrier → InFlightHolds P.ConnectionProvider result }
        ensures none { (patience : ℕ) → polls_left patience result ≡ 0 }
    {
        InFlight {
            carrier,
            orders: BTreeMap::new(alloc),
        }
    }

    pub fn provider(&self) -> &P
        ensures { result.now ≡ self.now.carrier.provider }
    {
        self.carrier.provider()
    }

    pub fn into_provider(self) -> P
        ensures { result ≡ self.carrier.provider }
    {
        let InFlight { carrier, orders: _ } = self;
        carrier.into_provider()
    }

    /// What was sent for the order of a number, if it is held, and is under way still.
    fn sent(&self, number: u64) -> Option<&SentBy>
        ensures { option_copied result ≡ sent_by self.now number }
    {
        match self.orders.get(&number) {
            Some(running) => self.carrier.sent(number, &running.order),
            None => None,
        }
    }

    /// What was sent for the order of a number and is waited for still after this outcome of it.
    pub fn awaited(&self, number: u64, outcome: &Outcome) -> Option<&SentBy>
        ensures { option_copied result ≡ still_awaited outcome.now (sent_by self.now number) }
    {
        match outcome {
            Outcome::Pending { .. } => self.sent(number),
            Outcome::Connected { .. }
            | Outcome::Told { .. }
            | Outcome::Failed { .. }
            | Outcome::Slept => None,
        }
    }

    /// Carries an order that is held once more, and counts that first: a poll that runs out of memory
    /// is counted too.
    fn carry(&mut self, number: u64, tick: Tick) -> Result<Outcome, NoMemory>
        requires { CanRun P.ConnectionProvider tick.patience number self.old }
        ensures carries_on { CarriesOn P.ConnectionProvider self.old.carrier self.new.carrier }
        ensures holds { InFlightHolds P.ConnectionProvider self.new }
        ensures moves { InFlightMoves tick.patience tick.now (StartsRight number self.old) (P.log self.old.carrier.provider) (P.log self.new.carrier.provider) }
        ensures told { IfOk result (λ outcome. TellsThat (P.log self.new.carrier.provider) (HasTold tick.now (sent_by self.new number) outcome)) }
        ensures counted { IsCounted tick.patience number self.old self.new }
    {
        let Some(running) = self.orders.get_mut(&number) else {
            unreachable!()
        };
        running.polls += 1;
        let Some(outcome) = self.carrier.carry(number, &running.order, tick.now)? else {
            return Err(NoMemory);
        };
        Ok(outcome)
    }

    /// Holds an order that was just given, and polls it once. It is refused where one is under way under
    /// its number, and held before it is started, so that what was started is held.
    pub fn start(&mut self, number: u64, order: Box<Order>, tick: Tick) -> Result<Outcome, NoMemory>
        requires { InFlightHolds P.ConnectionProvider self.old }
        ensures carries_on { CarriesOn P.ConnectionProvider self.old.carrier self.new.carrier }
        ensures holds { InFlightHolds P.ConnectionProvider self.new }
        ensures moves { InFlightMoves tick.patience tick.now (GoesRight (P.log self.old.carrier.provider) order.value) (P.log self.old.carrier.provider) (P.log self.new.carrier.provider) }
        ensures told { IfOk result (λ outcome. TellsThat (P.log self.new.carrier.provider) (HasTold tick.now (sent_by self.new number) outcome)) }
        ensures held { OnOk result (IsStarted number order self.new) }
        ensures polls { Grows tick.patience number self.old self.new }
    {
        if !self.carrier.is_free(number) {
            return Err(NoMemory);
        }
        self.orders
            .insert(number, InFlightOrder { order, polls: 0 })?;
        self.carry(number, tick)
    }

    /// Polls the order of a number once more, where it is held and under way, and patience allows it.
    pub fn poll(&mut self, number: u64, tick: Tick) -> Result<Outcome, NoMemory>
        requires { InFlightHolds P.ConnectionProvider self.old }
        ensures carries_on { CarriesOn P.ConnectionProvider self.old.carrier self.new.carrier }
        ensures holds { InFlightHolds P.ConnectionProvider self.new }
        ensures moves { InFlightMoves tick.patience tick.now GoesNowhere (P.log self.old.carrier.provider) (P.log self.new.carrier.provider) }
        ensures told { IfOk result (λ outcome. TellsThat (P.log self.new.carrier.provider) (HasTold tick.now (sent_by self.new number) outcome)) }
        ensures falls { OnOk result (IsPolled tick.patience number self.old self.new) }
        ensures keeps { Keeps tick.patience number self.old self.new }
    {
        let Some(running) = self.orders.get(&number) else {
            return Err(NoMemory);
        };
        if running.polls >= tick.patience.max(1)
            || !self.carrier.is_under_way(number, &running.order)
        {
            return Err(NoMemory);
        }
        self.carry(number, tick)
    }

    /// Forgets the order of a number, which has ended. What is under way is not given up.
    pub fn close(&mut self, number: u64)
        requires { InFlightHolds P.ConnectionProvider self.old }
        ensures holds { InFlightHolds P.ConnectionProvider self.new }
        ensures same { self.new.carrier ≡ self.old.carrier }
        ensures polls { (patience : ℕ) → polls_left patience self.new ≤ polls_left patience self.old }
        ensures gone { IsForgotten number self.old self.new }
    {
        self.orders.remove(&number);
    }

    /// Gives up what is under way under a number, and forgets the order. An entry says so of what was
    /// sent; else nothing does.
    pub fn give_up(&mut self, number: u64, now: u64)
        requires { InFlightHolds P.ConnectionProvider self.old }
        ensures carries_on { CarriesOn P.ConnectionProvider self.old.carrier self.new.carrier }
        ensures holds { InFlightHolds P.ConnectionProvider self.new }
        ensures moves { (patience : ℕ) → InFlightMoves patience now GoesNowhere (P.log self.old.carrier.provider) (P.log self.new.carrier.provider) }
        ensures log { IsSome (held_at self.old number) → P.log self.new.carrier.provider ≡ with_entries (give_up_entry now (sent_by self.old number)) (P.log self.old.carrier.provider) }
        ensures polls { (patience : ℕ) → polls_left patience self.new ≤ polls_left patience self.old }
        ensures gone { IsForgotten number self.old self.new }
    {
        self.carrier.give_up(number, now);
        self.close(number);
    }
}
