//! Attempts: each tries one server once.
ghost use Rattle.std.specs.Prelude.{◌≡◌, ◌<◌, true, vec_capacity, length, slice_get, Some, IfOk, OnOk, OnErr, MatchResult};
ghost use Rattle.server_core.specs.Hearing.{changed_at};
ghost use Rattle.server_core.specs.Sending.{after_next, after_put, takes_memory};
ghost use Rattle.server_core.specs.Servers.{place_of};
ghost use Rattle.pool_lookup.specs.declared.attempt.Attempt.{Attempt as InFlight};
ghost use Rattle.pool_lookup.specs.Attempts.{CanGive, first_attempt, is_open_at, is_idle};
ghost use Rattle.pool_lookup.specs.Cancelling.{heard_table};
ghost use Rattle.pool_lookup.specs.Giving.{Orders, IsGivenAt, ordered};
ghost use Rattle.pool_lookup.specs.Hearing.{end_by, put_in, Puts};

use dns_core::{DnsRequest, Message, NetError, NoMemory};
use pool_rules::PoolServer;
use server_core::{
    After, ConnectionPolicy, Order, Outcome, PoolContext, SendStep, ServerSend, ServerTable, Tick,
};
use std::alloc::Global;

/// An attempt in flight: the server that is tried, the number of its last order, 0 before the first, and
/// its send.
#[derive(Drop)]
pub struct Attempt {
    pub candidate: PoolServer,
    pub order: u64,
    pub send: ServerSend,
}

/// What an outcome did to its order, and what the attempt ended with, if it did.
#[derive(Drop)]
pub(crate) struct Put {
    pub(crate) after: After,
    pub(crate) end: Option<Result<Message, NetError>>,
}

impl Attempt {
    /// The request is sent to a server for the first time.
    pub(crate) fn first(candidate: PoolServer, request: DnsRequest, udp_off: bool) -> Attempt
        ensures { result ≡ first_attempt request udp_off candidate }
    {
        let policy = ConnectionPolicy {
            disable_udp: udp_off,
        };
        Attempt {
            candidate,
            order: 0,
            send: ServerSend::new(candidate.server, request, policy),
        }
    }

    /// Whether its open order has a number.
    pub(crate) fn is_open_at(&self, number: u64) -> bool
        ensures { result ≡ is_open_at number self.now }
    {
        self.order == number && self.send.stage.is_open()
    }

    /// Whether no order of it is open.
    pub(crate) fn is_idle(&self) -> bool
        ensures { result ≡ is_idle self.now }
    {
        !self.send.stage.is_open()
    }

    /// Gives its next order, under a number. Its server is reached, so there is one.
    pub(crate) fn give(
        &mut self,
        alloc: Global,
        table: &mut ServerTable,
        cx: &mut PoolContext,
        number: u64,
        tick: Tick,
    ) -> Result<Order, NoMemory>
        requires { CanGive table.old self.old }
        ensures orders { IfOk result (λ order. Orders number tick.now table.old self.old order self.new.send.stage) }
        ensures ok { OnOk result (self.new ≡ ordered number self.new.send.stage self.old) }
        ensures err { OnErr result (self.new ≡ self.old) }
        ensures table { table.new ≡ changed_at (after_next self.old.send.stage result) self.old.send.server table.old }
        ensures context { cx.new ≡ cx.old }
    {
        let step = self.send.next(alloc, table, cx, number, tick)?;
        match step {
            SendStep::Order(order) => {
                self.order = number;
                Ok(order)
            }
            _ => unreachable!(),
        }
    }

    /// Takes the outcome of its open order, and what it ended with, if it did. Out of memory, nothing has
    /// changed.
    fn put(
        &mut self,
        alloc: Global,
        table: &mut ServerTable,
        cx: &mut PoolContext,
        outcome: Outcome,
        tick: Tick,
    ) -> Result<Put, NoMemory>
        requires { place_of self.old.send.server < length table.old }
        ensures after { MatchResult result (λ put. put.after ≡ after_put tick.patience self.old.send.stage outcome) (λ error. takes_memory self.old.send.stage outcome ≡ true) }
        ensures end { IfOk result (λ put. put.end ≡ end_by tick.patience outcome self.old) }
        ensures ok { OnOk result (self.new ≡ put_in tick.patience outcome self.old) }
        ensures err { OnErr result (self.new ≡ self.old) }
        ensures table { MatchResult result (λ put. table.new ≡ heard_table tick outcome self.old table.old) (λ error. table.new ≡ table.old) }
        ensures context { cx.new ≡ cx.old }
    {
        let after = self.send.put(alloc, table, cx, outcome, tick)?;
        let end = self.send.take_end();
        Ok(Put { after, end })
    }
}

/// The attempt at a place gives its next order, under a number.
pub(crate) fn give_at(
    attempts: &mut Vec<Attempt>,
    alloc: Global,
    table: &mut ServerTable,
    cx: &mut PoolContext,
    place: usize,
    number: u64,
    tick: Tick,
) -> Result<Order, NoMemory>
    requires place { place < length attempts.old.items }
    requires can { (a : InFlight) → slice_get attempts.old.items place ≡ Some a → CanGive table.old a }
    ensures given { (a : InFlight) → slice_get attempts.old.items place ≡ Some a
        → IfOk result (λ order. IsGivenAt place number tick.now table.old attempts.old.items a order attempts.new.items) }
    ensures err { OnErr result (attempts.new.items ≡ attempts.old.items) }
    ensures table { (a : InFlight) → slice_get attempts.old.items place ≡ Some a → table.new ≡ changed_at (after_next a.send.stage result) a.send.server table.old }
    ensures room { vec_capacity attempts.new ≡ vec_capacity attempts.old }
    ensures context { cx.new ≡ cx.old }
{
    let attempt = &mut attempts[place];
    attempt.give(alloc, table, cx, number, tick)
}

/// The attempt at a place takes the outcome of its open order.
pub(crate) fn put_at(
    attempts: &mut Vec<Attempt>,
    alloc: Global,
    table: &mut ServerTable,
    cx: &mut PoolContext,
    place: usize,
    outcome: Outcome,
    tick: Tick,
) -> Result<Put, NoMemory>
    requires place { place < length attempts.old.items }
    requires there { (a : InFlight) → slice_get attempts.old.items place ≡ Some a → place_of a.send.server < length table.old }
    ensures put { (a : InFlight) → slice_get attempts.old.items place ≡ Some a
        → Puts place tick outcome a attempts.old.items result attempts.new.items }
    ensures err { OnErr result (attempts.new.items ≡ attempts.old.items) }
    ensures table { (a : InFlight) → slice_get attempts.old.items place ≡ Some a
        → MatchResult result (λ put. table.new ≡ heard_table tick outcome a table.old) (λ error. table.new ≡ table.old) }
    ensures room { vec_capacity attempts.new ≡ vec_capacity attempts.old }
    ensures context { cx.new ≡ cx.old }
{
    let attempt = &mut attempts[place];
    attempt.put(alloc, table, cx, outcome, tick)
}
