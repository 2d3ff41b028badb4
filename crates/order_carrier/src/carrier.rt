//! Orders that are under way over a provider, and the entries of its log.
ghost use Rattle.std.specs.Prelude.{◌≡◌, ◌<◌, ◌≤◌, ◌+◌, ◌^◌, ◌&&◌, ◌↔◌, ℕ, IsTrue, IsSome, List, [], length, Some, None, is_some, unwrap_or, if◌then◌else◌};
ghost use Rattle.std.specs.Result.{result_ok};
ghost use Rattle.dns_core.specs.declared.log.LogEntry.{LogEntry};
ghost use Rattle.order_carrier.specs.Awaited.{sent_of, counted_after, IsNamed};
ghost use Rattle.order_carrier.specs.Key.{key_of, same_key};
ghost use Rattle.order_carrier.specs.Did.{order_in, told_by, poll_entry};
ghost use Rattle.order_carrier.specs.Did.Stand.{Unseen};
ghost use Rattle.order_carrier.specs.Stand.{slot_at, stand_at, IsPutAt, IsSlotNamed};
ghost use Rattle.order_carrier.specs.Carrying.{CarrierHolds, Carries, Hears};
ghost use Rattle.order_carrier.specs.declared.key.OrderKey.{OrderKey as Key};

use crate::awaited::Awaited;
use crate::key::OrderKey;
use crate::order_state::OrderState;
use crate::polling::{Heard, Polled, poll_awaited};
use crate::under_way::UnderWay;
use dns_core::{ConnectOptions, ConnectionProvider, NoMemory};
use server_core::{Order, Outcome};
use std::alloc::Global;
use std::collections::BTreeMap;
use std::mem;

/// What stands under the number and the form of each order, and how many entries the log has.
pub struct Carrier<P: ConnectionProvider> {
    pub(crate) alloc: Global,
    pub(crate) provider: P,
    pub(crate) options: ConnectOptions,
    pub(crate) slots: BTreeMap<OrderKey, OrderState<P>>,
    pub(crate) entries: u64,
}

impl<P: ConnectionProvider> Drop for Carrier<P> {
    fn drop(self) {
        let Carrier {
            alloc: _,
            provider: _,
            options: _,
            slots: _,
            entries: _,
        } = self;
    }
}

/// Puts a value in the place of the one that stands under a key, if one does.
fn put_under<S: Drop>(slots: &mut BTreeMap<OrderKey, S>, key: OrderKey, value: S)
    ensures { (k : Key) → slot_at slots.new k ≡ (if is_some (slot_at slots.old key) && same_key key k then Some value else slot_at slots.old k) }
{
    if let Some(place) = slots.get_mut(&key) {
        *place = value;
    }
}

impl<P: ConnectionProvider> Carrier<P> {
    /// Carries orders over a provider whose log is empty; each connection is opened with these options.
    pub fn new(alloc: Global, provider: P, options: ConnectOptions) -> Carrier<P>
        ensures provider { result.provider ≡ provider }
        ensures options { result.options ≡ options }
        ensures unseen { (key : Key) → stand_at result.slots key ≡ Unseen }
        ensures holds { ((es : List LogEntry) → P.log provider ≡ Some es → es ≡ []) → CarrierHolds P.ConnectionProvider result }
    {
        Carrier {
            alloc,
            provider,
            options,
            slots: BTreeMap::new(alloc),
            entries: 0,
        }
    }

    pub fn provider(&self) -> &P
        ensures { result.now ≡ self.now.provider }
    {
        &self.provider
    }

    pub fn into_provider(self) -> P
        ensures { result ≡ self.provider }
    {
        let Carrier {
            alloc: _,
            provider,
            options: _,
            slots: _,
            entries: _,
        } = self;
        provider
    }

    /// Counts the entry that sent what is waited for, or that gave it up, where there is one.
    pub(crate) fn count_sent(&mut self, awaited: &Awaited<P::FutureConn, P::Exchange>)
        ensures { self.new ≡ record self.old { entries = counted_after self.old.entries (sent_of awaited.now) } }
    {
        match awaited {
            Awaited::Connection { .. } => self.entries = self.entries.saturating_add(1),
            Awaited::Answer { .. } => self.entries = self.entries.saturating_add(1),
            Awaited::Moment { .. } => {}
        }
    }

    /// Whether numbers are left for the entries of a call, and for that of a give-up after it.
    pub(crate) fn has_numbers(&self) -> bool
        ensures { IsTrue result ↔ (self.now.entries + 4 < 2 ^ 64) }
    {
        self.entries < u64::MAX - 3
    }

    /// Puts into a place what stands there from now on.
    pub(crate) fn put(&mut self, key: OrderKey, slot: OrderState<P>)
        requires { IsSome (slot_at self.old.slots key) }
        ensures same { (self.new.provider ≡ self.old.provider) × (self.new.entries ≡ self.old.entries) × (self.new.options ≡ self.old.options) }
        ensures slots { IsPutAt key slot self.old.slots self.new.slots }
    {
        put_under(&mut self.slots, key, slot);
    }

    /// Takes what stands in a place, and leaves that it is over.
    pub(crate) fn take(&mut self, key: OrderKey) -> OrderState<P>
        requires { IsSome (slot_at self.old.slots key) }
        ensures same { (self.new.provider ≡ self.old.provider) × (self.new.entries ≡ self.old.entries) × (self.new.options ≡ self.old.options) }
        ensures was { result ≡ unwrap_or (slot_at self.old.slots key) OrderState.Done }
        ensures slots { IsPutAt key OrderState.Done self.old.slots self.new.slots }
    {
        match self.slots.get_mut(&key) {
            Some(place) => mem::replace(place, OrderState::Done),
            None => OrderState::Done,
        }
    }

    /// Whether the numbers of all orders that were started are below this one.
    pub(crate) fn is_past(&self, number: u64) -> bool
        ensures { IsTrue result → (k : Key) → number ≤ k.number → slot_at self.now.slots k ≡ None }
    {
        match self.slots.last_key_value() {
            Some((last, _slot)) => last.number < number,
            None => true,
        }
    }

    /// Whether no order was started under a key.
    fn is_unseen(&self, key: OrderKey) -> bool
        ensures { IsTrue result ↔ (stand_at self.now.slots key ≡ Unseen) }
    {
        if self.is_past(key.number) {
            return true;
        }
        match self.slots.get(&key) {
            None | Some(OrderState::Reserved) => true,
            Some(OrderState::InFlight(_) | OrderState::Connected(_) | OrderState::Done) => false,
        }
    }

    /// Whether just this order is under way under a key.
    fn is_going(&self, key: OrderKey, order: &Order) -> bool
        ensures { IsTrue result ↔ (order_in (stand_at self.now.slots key) ≡ Some order.now) }
    {
        match self.slots.get(&key) {
            Some(OrderState::InFlight(under_way)) => under_way.order.identical(order),
            None | Some(OrderState::Reserved | OrderState::Connected(_) | OrderState::Done) =>
                false,
        }
    }

    /// Whether just this order is under way under its number.
    pub fn is_under_way(&self, number: u64, order: &Order) -> bool
        ensures { IsTrue result ↔ (order_in (stand_at self.now.slots (key_of number order.now)) ≡ Some order.now) }
    {
        self.is_going(OrderKey::of(number, order), order)
    }

    /// The outcome of what was heard, with the number of the entry that says it.
    fn tell(&mut self, heard: Heard) -> Result<Option<Outcome>, NoMemory>
        requires { self.old.entries + 2 < 2 ^ 64 }
        ensures handed_out { result_ok result ≡ told_by (self.old.entries + 1) heard }
        ensures entries { (now : ℕ) → self.new.entries ≡ self.old.entries + length (poll_entry now heard) }
        ensures same { (self.new.provider ≡ self.old.provider) × (self.new.slots ≡ self.old.slots) × (self.new.options ≡ self.old.options) }
    {
        let entry = self.entries + 1;
        match heard {
            Heard::Waiting(of) => {
                self.entries = entry;
                Ok(Some(Outcome::Pending { entry, of }))
            }
            Heard::OutOfMemory => Err(NoMemory),
            Heard::Connected(sent) => {
                self.entries = entry;
                Ok(Some(Outcome::Connected { entry, sent }))
            }
            Heard::Answered(sent, message) => {
                self.entries = entry;
                Ok(Some(Outcome::Told {
                    entry,
                    sent,
                    message,
                }))
            }
            Heard::Failed(sent, error) => {
                self.entries = entry;
                Ok(Some(Outcome::Failed {
                    entry,
                    sent,
                    refused: false,
                    error,
                }))
            }
            Heard::Resting => Ok(Some(Outcome::Pending { entry: 0, of: 0 })),
            Heard::Slept => Ok(Some(Outcome::Slept)),
        }
    }

    /// Polls an order, and keeps in its place what the poll leaves.
    pub(crate) fn poll(
        &mut self,
        key: OrderKey,
        under_way: UnderWay<P>,
        now: u64,
    ) -> Result<Option<Outcome>, NoMemory>
        requires numbers { self.old.entries + 2 < 2 ^ 64 }
        requires place { IsSome (slot_at self.old.slots key) }
        requires named { IsNamed P.ConnectionProvider (P.log self.old.provider) under_way.awaited }
        ensures vouches { (es : List LogEntry) → P.vouches self.new.provider es → P.vouches self.old.provider es }
        ensures hears { Hears P.ConnectionProvider key under_way.order.value (sent_of under_way.awaited) now self.old self.new (result_ok result) }
    {
        let Polled { slot, heard } = poll_awaited(&mut self.provider, under_way, now);
        self.put(key, slot);
        self.tell(heard)
    }

    /// Polls an order that was under way before.
    fn poll_again(
        &mut self,
        key: OrderKey,
        order: &Order,
        now: u64,
    ) -> Result<Option<Outcome>, NoMemory>
        requires going { order_in (stand_at self.old.slots key) ≡ Some order.now }
        requires named { IsSlotNamed P.ConnectionProvider (P.log self.old.provider) (slot_at self.old.slots key) }
        ensures vouches { (es : List LogEntry) → P.vouches self.new.provider es → P.vouches self.old.provider es }
        ensures carries { Carries P.ConnectionProvider key order.now now self.old self.new (result_ok result) }
    {
        if !self.has_numbers() {
            return Err(NoMemory);
        }
        let OrderState::InFlight(under_way) = self.take(key) else {
            unreachable!()
        };
        self.poll(key, under_way, now)
    }

    /// Starts an order that it has not seen, then polls it once. There is no outcome where that of the
    /// order was handed out or the order given up before, a different order of its form was started under
    /// its number, or an ask names an order that made no connection to its address over its protocol. A
    /// sleep is pending before its moment, and has ended from then on. Where the numbers of entries would
    /// pass their type the answer is out of memory too.
    pub fn carry(
        &mut self,
        number: u64,
        order: &Order,
        now: u64,
    ) -> Result<Option<Outcome>, NoMemory>
        requires { CarrierHolds P.ConnectionProvider self.old }
        ensures vouches { (es : List LogEntry) → P.vouches self.new.provider es → P.vouches self.old.provider es }

        // It did one thing, which was allowed by where the order stood; the entries that were appended, what is handed
        // out and where the order stands now follow of that, and every other order stands as before.
        ensures carries { Carries P.ConnectionProvider (key_of number order.now) order.now now self.old self.new (result_ok result) }
        ensures holds { CarrierHolds P.ConnectionProvider self.new }
    {
        let key = OrderKey::of(number, order);
        if self.is_unseen(key) {
            return self.start(key, order, now);
        }
        if self.is_going(key, order) {
            return self.poll_again(key, order, now);
        }
        Ok(None)
    }
}
