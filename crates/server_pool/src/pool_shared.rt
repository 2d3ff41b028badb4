//! What the pools of a resolver share.
ghost use Rattle.std.specs.Prelude.{◌≡◌, ◌≢◌, ◌+◌, ◌⊎◌, ◌++◌, ℕ, Bool, ◌∷◌, [], length, IfOk, IfSome, true, Contains, OnOk, OnErr, Ok, Err, Some, None, ◌↔◌, IsTrue, option_and_then};
ghost use Rattle.std.specs.List.Sorted.{IsStrictlyIncreasing};
ghost use Rattle.std.specs.declared.net.IpAddr.{IpAddr};
ghost use Rattle.pool_rules.specs.Ordering.{next_turn};
ghost use Rattle.pool_lookup.specs.Asked.{answer_of};
ghost use Rattle.pool_lookup.specs.Holds.{Holds};
ghost use Rattle.server_pool.specs.OpenLookups.{is_last, after_leave, closed_by};
ghost use Rattle.server_pool.specs.declared.open_lookups.open_lookup.OpenLookup.{OpenLookup as Seen};
ghost use Rattle.server_pool.specs.Orders.{IsOpenOrder, open_at, first_withdrawn, after_withdrawn};
ghost use Rattle.server_pool.specs.Promises.{IsFairly, IfDone, IfWaiting};
ghost use Rattle.server_pool.specs.Sending.{Begins, HasBegun, after_join, HasSent};
ghost use Rattle.server_pool.specs.Shared.{lookup_at, lookup_of, turn_at, denied_in};
ghost use Rattle.server_pool.specs.Stepping.{told_by, HasStepped, HasHalted, HasPut};

use crate::open_lookups::beginning::add_begun;
use crate::open_lookups::open_lookup::{
    OpenLookup, is_last, is_open_in, join_at, leave_at, open_for, put_at, step_at, take_lookup,
};
use crate::open_lookups::orders::{drop_closed, keep_order, take_out};
use crate::open_lookups::reached::usable_servers;
use dns_core::{Boxed, DnsRequest, Message, NetError, NoMemory, Numbers, TryClone};
use pool_lookup::{Lookup, LookupStep};
use pool_rules::{concurrency_of, ordered};
use server_core::{After, NameServer, Order, Outcome, PoolContext, ServerTable, Tick};
use std::alloc::Global;
use std::collections::BTreeMap;
use std::marker::Model;

/// What a lookup at a pool does next: it gives an order with its number, waits for the outcome of one
/// that is open, or has its answer.
#[derive(Drop)]
pub enum PoolStep {
    Order { number: u64, order: Order },
    Waiting,
    Done(Result<Message, NetError>),
}

impl TryClone for PoolStep {
    fn try_clone(&self, alloc: Global) -> Result<Self, NoMemory> {
        match self {
            PoolStep::Order { number, order } => {
                let order = order.try_clone(alloc)?;
                Ok(PoolStep::Order {
                    number: *number,
                    order,
                })
            }
            PoolStep::Waiting => Ok(PoolStep::Waiting),
            PoolStep::Done(Ok(message)) => {
                let message = message.try_clone(alloc)?;
                Ok(PoolStep::Done(Ok(message)))
            }
            PoolStep::Done(Err(error)) => {
                let error = error.try_clone(alloc)?;
                Ok(PoolStep::Done(Err(error)))
            }
        }
    }
}

/// The servers, the settings of all pools, the lookups that are under way by their numbers, the lookup of
/// each order that was given and has not ended, whose turn it is in each pool that takes turns, and how
/// many pools were numbered, requests were sent and orders were given so far.
pub struct PoolShared {
    table: ServerTable,
    context: PoolContext,
    pools: u64,
    lookups: BTreeMap<u64, OpenLookup>,
    orders: BTreeMap<u64, u64>,
    turns: BTreeMap<u64, usize>,
    sent: u64,
    given: u64,
}

impl Drop for PoolShared {
    fn drop(self) {
        let PoolShared {
            table: _,
            context: _,
            pools: _,
            lookups: _,
            orders: _,
            turns: _,
            sent: _,
            given: _,
        } = self;
    }
}

impl Model for PoolShared {
    ghost use Rattle.std.specs.Prelude.{◌<◌, ◌^◌, length};
    ghost use Rattle.pool_rules.specs.AnswerFilter.{denied_by};
    ghost use Rattle.server_pool.specs.Holds.{SharedHolds};
    ghost use Rattle.server_pool.specs.Shared.{Shared};

    ghost Value = { Shared };

    ghost view = { λ a. record { table = a.table; context = a.context; pools = a.pools; lookups = a.lookups.entries; orders = a.orders.entries; turns = a.turns.entries; sent = a.sent; given = a.given } };

    ghost invariant = { λ a. (length a.table < 2 ^ 32) × SharedHolds (denied_by a.context.answer_address_filter) a.table a.lookups.entries a.orders.entries a.sent a.given };
}

/// What a step of a lookup is as one of its pool: an order has the number.
fn numbered(number: u64, made: Result<LookupStep, NoMemory>) -> Result<PoolStep, NoMemory>
    ensures { result ≡ told_by number made }
{
    match made {
        Ok(LookupStep::Order(order)) => Ok(PoolStep::Order { number, order }),
        Ok(LookupStep::Waiting) => Ok(PoolStep::Waiting),
        Ok(LookupStep::Done(answer)) => Ok(PoolStep::Done(answer)),
        Err(NoMemory) => Err(NoMemory),
    }
}

/// The number after those so far.
fn number_after(last: u64) -> Result<u64, NoMemory>
    ensures { IfOk result (λ number. number ≡ last + 1) }
{
    if last == u64::MAX {
        Err(NoMemory)
    } else {
        Ok(last + 1)
    }
}

impl PoolShared {
    /// Without servers. It takes no memory.
    pub fn new(alloc: Global, context: PoolContext) -> Self
        ensures { result ≡ record { table = []; context = context; pools = 0; lookups = []; orders = []; turns = []; sent = 0; given = 0 } }
    {
        PoolShared {
            table: ServerTable::new(alloc),
            context,
            pools: 0,
            lookups: BTreeMap::new(alloc),
            orders: BTreeMap::new(alloc),
            turns: BTreeMap::new(alloc),
            sent: 0,
            given: 0,
        }
    }

    /// The settings of all pools.
    pub fn context(&self) -> &PoolContext
        ensures { result.now ≡ self.now.context }
    {
        &self.context
    }

    pub fn table(&self) -> &ServerTable
        ensures { result.now ≡ self.now.table }
    {
        &self.table
    }

    /// How many servers it has: their numbers are those from 1 to it.
    pub fn live_servers(&self) -> u32
        ensures { result ≡ length self.now.table }
    {
        self.table.len() as u32
    }

    /// Adds a server. Its number is the count of servers, from 1 on.
    pub fn add(&mut self, alloc: Global, server: NameServer) -> Result<u32, NoMemory>
        ensures number { IfOk result (λ number. number ≡ length self.old.table + 1) }
        ensures ok { OnOk result (self.new ≡ record self.old { table = self.old.table ++ server ∷ [] }) }
        ensures err { OnErr result (self.new ≡ self.old) }
    {
        if self.live_servers() == u32::MAX {
            return Err(NoMemory);
        }
        let number = self.table.add(alloc, server)?;
        Ok(number)
    }

    /// The number of one more pool: greater than every one before it.
    pub(crate) fn number_pool(&mut self) -> Result<u64, NoMemory>
        ensures number { IfOk result (λ number. number ≡ self.old.pools + 1) }
        ensures ok { OnOk result (self.new ≡ record self.old { pools = self.old.pools + 1 }) }
        ensures err { OnErr result (self.new ≡ self.old) }
    {
        if self.pools == u64::MAX {
            return Err(NoMemory);
        }
        self.pools += 1;
        Ok(self.pools)
    }

    /// Whose turn it is in the pool of a number.
    fn turn_of(&self, pool: u64) -> usize
        ensures { result ≡ turn_at self.now pool }
    {
        match self.turns.get(&pool) {
            Some(turn) => *turn,
            None => 0,
        }
    }

    /// The lookup of a request that begins at these servers, and whose turn it is then.
    fn first_round(
        &self,
        alloc: Global,
        servers: &[u32],
        turn: &mut usize,
        request: DnsRequest,
        tick: Tick,
    ) -> Result<Boxed<Lookup>, NoMemory>
        ensures begins { IfOk result (Begins self.now.context.options self.now.table servers.now turn.old request tick.now) }
        ensures holds { (denied : IpAddr → Bool) → IfOk result (Holds denied) }
        ensures turn { OnOk result (turn.new ≡ next_turn self.now.context.options turn.old (length servers.now)) }
    {
        let options = self.context.options();
        let mut servers = Vec::from_slice(alloc, servers)?;
        ordered(alloc, &mut servers, turn, &self.table, options, tick.now)?;
        let found = usable_servers(alloc, &self.table, servers)?;
        if found.len() > u32::MAX as usize {
            return Err(NoMemory);
        }
        let concurrency = concurrency_of(options);
        Lookup::begin(
            alloc,
            request,
            found,
            concurrency,
            options.timeout,
            tick.now,
        )
    }

    /// Begins a lookup of a request at the servers of the pool of a number. Where memory runs out,
    /// nothing has changed.
    fn begin(
        &mut self,
        alloc: Global,
        pool: u64,
        servers: &[u32],
        request: DnsRequest,
        tick: Tick,
    ) -> Result<u64, NoMemory>
        ensures ok { IfOk result (HasBegun pool servers.now request tick.now self.old self.new) }
        ensures err { OnErr result (self.new ≡ self.old) }
    {
        let number = number_after(self.sent)?;
        let before = self.turn_of(pool);
        let mut turn = before;
        let lookup = self.first_round(alloc, servers, &mut turn, request, tick)?;
        let open = OpenLookup {
            pool,
            waiters: 1,
            lookup,
        };
        add_begun(
            &mut self.lookups,
            &mut self.turns,
            number,
            open,
            before,
            turn,
        )?;
        self.sent = number;
        Ok(number)
    }

    /// One more waits for the lookup of a number.
    fn join(&mut self, lookup: u64) -> Result<u64, NoMemory>
        ensures number { IfOk result (λ number. number ≡ lookup) }
        ensures ok { OnOk result (self.new ≡ after_join lookup self.old) }
        ensures err { OnErr result (self.new ≡ self.old) }
    {
        let number = number_after(self.sent)?;
        join_at(&mut self.lookups, lookup);
        self.sent = number;
        Ok(lookup)
    }

    /// Sends a request to the servers of the pool of a number: it joins the lookup of its key there that
    /// has no answer yet, or begins one. Where memory runs out, nothing has changed.
    pub(crate) fn send(
        &mut self,
        alloc: Global,
        pool: u64,
        servers: &[u32],
        request: DnsRequest,
        tick: Tick,
    ) -> Result<u64, NoMemory>
        ensures ok { IfOk result (HasSent pool servers.now request tick.now self.old self.new) }
        ensures err { OnErr result (self.new ≡ self.old) }
    {
        match open_for(&self.lookups, pool, &request) {
            Some(lookup) => self.join(lookup),
            None => self.begin(alloc, pool, servers, request, tick),
        }
    }

    /// The next step of the lookup of a number. Room for its order is made first, and taken back where it
    /// gives none.
    pub(crate) fn next(
        &mut self,
        alloc: Global,
        lookup: u64,
        tick: Tick,
    ) -> Result<PoolStep, NoMemory>
        ensures steps { (l : Seen) → lookup_at self.old lookup ≡ Some l → IfOk result (λ told. HasStepped lookup tick.now l self.old told self.new) }
        ensures halts { (l : Seen) → lookup_at self.old lookup ≡ Some l → OnErr result ((self.new ≡ self.old) ⊎ HasHalted lookup tick.now l self.old self.new) }
        ensures gone { lookup_at self.old lookup ≡ None → IfOk result (λ told. told ≡ PoolStep.Done (Err NetError.NoConnections)) × (self.new ≡ self.old) }
        ensures fair { (l : Seen) → lookup_at self.new lookup ≡ Some l → IsFairly l.lookup }
        ensures answer { (l : Seen) → lookup_at self.new lookup ≡ Some l → IfOk result (IfDone (denied_in self.old) l.lookup) }
        ensures waits { IfOk result (IfWaiting lookup self.new) }
    {
        let number = number_after(self.given)?;
        let _room = self.orders.insert(number, lookup)?;
        let made = step_at(
            &mut self.lookups,
            alloc,
            &mut self.table,
            &mut self.context,
            lookup,
            number,
            tick,
        );
        keep_order(&mut self.orders, &mut self.given, number, &made);
        numbered(number, made)
    }

    /// The number of the lookup at which the order of a number is open; none where it is open nowhere.
    pub fn open_at(&self, number: u64) -> Option<u64>
        ensures { result ≡ open_at number self.now }
    {
        match self.orders.get(&number) {
            Some(lookup) => {
                if is_open_in(&self.lookups, *lookup, number) {
                    Some(*lookup)
                } else {
                    None
                }
            }
            None => None,
        }
    }

    /// Takes the outcome of an order by its number. An order that has ended, was withdrawn, or was never
    /// given is late, and nothing changes. One that is not open any more after its outcome is forgotten.
    /// Memory can run out only for a message, and is then the answer of its lookup.
    pub fn put(
        &mut self,
        alloc: Global,
        number: u64,
        outcome: Outcome,
        tick: Tick,
    ) -> Result<After, NoMemory>
        ensures late { open_at number self.old ≡ None → (result ≡ Ok After.Late) × (self.new ≡ self.old) }
        ensures puts { (n : ℕ) (l : Seen) → IsOpenOrder number n l self.old → HasPut number n l outcome tick self.old result self.new }
    {
        match self.open_at(number) {
            Some(lookup) => {
                let after = put_at(
                    &mut self.lookups,
                    alloc,
                    &mut self.table,
                    &mut self.context,
                    lookup,
                    number,
                    outcome,
                    tick,
                );
                drop_closed(&self.lookups, &mut self.orders, lookup, number);
                after
            }
            None => {
                drop(outcome);
                Ok(After::Late)
            }
        }
    }

    /// One fewer waits for the lookup of a number. The last one takes it away, and so withdraws its open
    /// orders.
    pub(crate) fn leave(&mut self, lookup: u64)
        ensures left { self.new ≡ record self.old { lookups = after_leave lookup self.old.lookups } }
        ensures last { is_last lookup self.old.lookups ≡ true → lookup_at self.new lookup ≡ None }
    {
        if is_last(&self.lookups, lookup) {
            take_lookup(&mut self.lookups, lookup);
        } else {
            leave_at(&mut self.lookups, lookup);
        }
    }

    /// The number of the first order that was withdrawn.
    fn first_withdrawn(&self) -> Option<u64>
        ensures { result ≡ first_withdrawn self.now }
    {
        for (number, _lookup) in &self.orders {
            if self.open_at(*number).is_none() {
                return Some(*number);
            }
        }
        None
    }

    /// An order that was withdrawn, and is to be given up: each once.
    pub fn take_withdrawn(&mut self) -> Option<u64>
        ensures which { result ≡ first_withdrawn self.old }
        ensures after { self.new ≡ after_withdrawn result self.old }
        ensures once { IfSome result (λ number. lookup_of self.new number ≡ None) }
    {
        match self.first_withdrawn() {
            Some(number) => {
                take_out(&mut self.orders, number);
                Some(number)
            }
            None => None,
        }
    }

    /// Whether the order of a number is open at the lookup of a number.
    fn has_order(&self, lookup: u64, number: u64) -> bool
        ensures { IsTrue result ↔ ((l : Seen) × IsOpenOrder number lookup l self.now) }
    {
        match self.open_at(number) {
            Some(of) => of == lookup,
            None => false,
        }
    }

    /// The numbers of the open orders of a lookup, rising.
    pub(crate) fn open_orders(&self, alloc: Global, lookup: u64) -> Result<Numbers, NoMemory>
        ensures those { IfOk result (λ ns. (n : ℕ) → Contains ns n ↔ ((l : Seen) × IsOpenOrder n lookup l self.now)) }
        ensures rising { IfOk result IsStrictlyIncreasing }
    {
        let mut open = Numbers::empty(alloc);
        'orders: for number in self.orders.keys() {
            if self.has_order(lookup, *number) {
                open.push(*number)?;
            }
        }
        Ok(open)
    }

    /// Whether the lookup of a number is there.
    pub(crate) fn has(&self, lookup: u64) -> bool
        ensures { IsTrue result ↔ lookup_at self.now lookup ≢ None }
    {
        self.lookups.contains_key(&lookup)
    }

    /// A copy of what a lookup was answered, where it is decided; none where there is no such lookup.
    pub fn answer(
        &self,
        alloc: Global,
        lookup: u64,
    ) -> Result<Option<Result<Message, NetError>>, NoMemory>
        ensures { IfOk result (λ told. told ≡ option_and_then (λ l. answer_of l.lookup) (lookup_at self.now lookup)) }
    {
        match self.lookups.get(&lookup) {
            Some(open) => open.lookup.get().answer(alloc),
            None => Ok(None),
        }
    }

    /// By which log entries the attempts of a lookup ended, in the order in which their ends were heard.
    pub fn ends(&self, lookup: u64) -> &[u64]
        ensures ends { result.now ≡ closed_by (lookup_at self.now lookup) }
        ensures fair { (l : Seen) → lookup_at self.now lookup ≡ Some l → IsFairly l.lookup }
    {
        match self.lookups.get(&lookup) {
            Some(open) => open.lookup.get().closed_by(),
            None => &[],
        }
    }
}
