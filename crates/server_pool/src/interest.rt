//! One caller's interest in a lookup at a pool.
ghost use Rattle.std.specs.Prelude.{◌≡◌, ◌≢◌, ◌⊎◌, ℕ, ◌↔◌, true, [], Contains, IfOk, OnErr, Err, Some, None, option_and_then};
ghost use Rattle.std.specs.List.Sorted.{IsStrictlyIncreasing};
ghost use Rattle.pool_lookup.specs.Asked.{answer_of};
ghost use Rattle.server_pool.specs.OpenLookups.{is_last, after_leave, closed_by};
ghost use Rattle.server_pool.specs.declared.open_lookups.open_lookup.OpenLookup.{OpenLookup as Seen};
ghost use Rattle.server_pool.specs.Orders.{IsOpenOrder};
ghost use Rattle.server_pool.specs.Promises.{IsFairly, IfDone, IfWaiting};
ghost use Rattle.server_pool.specs.Sending.{request_by, HasSent};
ghost use Rattle.server_pool.specs.Shared.{lookup_at, denied_in};
ghost use Rattle.server_pool.specs.Stepping.{HasStepped, HasHalted};

use crate::pool::NameServerPool;
use crate::pool_shared::{PoolShared, PoolStep};
use dns_core::{DnsRequest, DnsRequestOptions, Message, NetError, NoMemory, Numbers, Query};
use server_core::Tick;
use std::alloc::Global;

/// A lookup that waits for its answer together with others of its key, by its number, and the numbers of
/// the servers of its pool.
#[derive(Debug)]
pub struct PoolLookup {
    number: u64,
    servers: Vec<u32>,
}

impl Drop for PoolLookup {
    fn drop(self) {
        let PoolLookup {
            number: _,
            servers: _,
        } = self;
    }
}

/// A copy of the numbers of servers.
fn copy_of(alloc: Global, servers: &[u32]) -> Result<Numbers, NoMemory>
    ensures { IfOk result (λ copy. copy ≡ servers.now) }
{
    let mut copy = Numbers::empty(alloc);
    for number in servers {
        copy.push(u64::from(*number))?;
    }
    Ok(copy)
}

impl NameServerPool {
    /// Asks the servers for a request. It joins the lookup at this pool that has no answer yet and is of
    /// the same question, whatever the case of its letters, with recursion, checking, DNSSEC and client
    /// subnet alike, where there is one. Where memory runs out, nothing has changed.
    pub fn send(
        &self,
        alloc: Global,
        shared: &mut PoolShared,
        request: DnsRequest,
        tick: Tick,
    ) -> Result<PoolLookup, NoMemory>
        ensures sent { IfOk result (λ lookup. HasSent self.now.number self.now.servers.items request tick.now shared.old shared.new lookup.number) }
        ensures servers { IfOk result (λ lookup. lookup.servers.items ≡ self.now.servers.items) }
        ensures err { OnErr result (shared.new ≡ shared.old) }
    {
        let servers = Vec::from_slice(alloc, self.servers())?;
        let number = shared.send(alloc, self.number(), self.servers(), request, tick)?;
        Ok(PoolLookup { number, servers })
    }

    /// The same by a pool that is used for this alone: the lookup takes over the numbers of its servers.
    pub fn into_lookup(
        self,
        alloc: Global,
        shared: &mut PoolShared,
        request: DnsRequest,
        tick: Tick,
    ) -> Result<PoolLookup, NoMemory>
        ensures sent { IfOk result (λ lookup. HasSent self.number self.servers.items request tick.now shared.old shared.new lookup.number) }
        ensures servers { IfOk result (λ lookup. lookup.servers.items ≡ self.servers.items) }
        ensures err { OnErr result (shared.new ≡ shared.old) }
    {
        let number = shared.send(alloc, self.number(), self.servers(), request, tick)?;
        Ok(PoolLookup {
            number,
            servers: self.into_servers(),
        })
    }

    /// Asks the servers a question, with the case of its letters by chance where the settings say so.
    pub fn lookup(
        &self,
        alloc: Global,
        shared: &mut PoolShared,
        query: Query,
        options: DnsRequestOptions,
        tick: Tick,
    ) -> Result<PoolLookup, NoMemory>
        ensures sent { IfOk result (λ lookup. HasSent self.now.number self.now.servers.items (request_by shared.old.context query options) tick.now shared.old shared.new lookup.number) }
        ensures servers { IfOk result (λ lookup. lookup.servers.items ≡ self.now.servers.items) }
        ensures err { OnErr result (shared.new ≡ shared.old) }
    {
        let mut options = options;
        options.case_randomization = shared.context().options().case_randomization;
        self.send(alloc, shared, DnsRequest { query, options }, tick)
    }
}

impl PoolLookup {
    /// Its number.
    pub fn number(&self) -> u64
        ensures { result ≡ self.now.number }
    {
        self.number
    }

    /// The numbers of the servers that the lookup names: those of its pool, in the order of their
    /// configuration. One that is not there, of another `PoolShared` say, names none.
    pub fn servers(&self, alloc: Global, shared: &PoolShared) -> Result<Numbers, NoMemory>
        ensures there { lookup_at shared.now self.now.number ≢ None → IfOk result (λ ns. ns ≡ self.now.servers.items) }
        ensures gone { lookup_at shared.now self.now.number ≡ None → IfOk result (λ ns. ns ≡ []) }
    {
        if shared.has(self.number) {
            copy_of(alloc, self.servers.as_slice())
        } else {
            Ok(Numbers::empty(alloc))
        }
    }

    /// The next step of the lookup, at a moment. Once it has its answer it tells the same each time. One
    /// that is not there, of another `PoolShared` say, has no connection. Each server has at most five
    /// ends for each of its places in the pool, and the one that turned UDP off one more, and of n places
    /// it makes at most 5 n + 1 sends (`fair`).
    pub fn next(
        &mut self,
        alloc: Global,
        shared: &mut PoolShared,
        tick: Tick,
    ) -> Result<PoolStep, NoMemory>
        ensures steps { (l : Seen) → lookup_at shared.old self.old.number ≡ Some l → IfOk result (λ told. HasStepped self.old.number tick.now l shared.old told shared.new) }
        ensures halts { (l : Seen) → lookup_at shared.old self.old.number ≡ Some l → OnErr result ((shared.new ≡ shared.old) ⊎ HasHalted self.old.number tick.now l shared.old shared.new) }
        ensures gone { lookup_at shared.old self.old.number ≡ None → IfOk result (λ told. told ≡ PoolStep.Done (Err NetError.NoConnections)) × (shared.new ≡ shared.old) }
        ensures fair { (l : Seen) → lookup_at shared.new self.old.number ≡ Some l → IsFairly l.lookup }
        ensures answer { (l : Seen) → lookup_at shared.new self.old.number ≡ Some l → IfOk result (IfDone (denied_in shared.old) l.lookup) }
        ensures waits { IfOk result (IfWaiting self.old.number shared.new) }
        ensures same { self.new ≡ self.old }
    {
        shared.next(alloc, self.number, tick)
    }

    /// What the lookup was answered, where it is decided.
    pub fn answer(
        &self,
        alloc: Global,
        shared: &PoolShared,
    ) -> Result<Option<Result<Message, NetError>>, NoMemory>
        ensures { IfOk result (λ told. told ≡ option_and_then (λ l. answer_of l.lookup) (lookup_at shared.now self.now.number)) }
    {
        shared.answer(alloc, self.number)
    }

    /// The numbers of the log entries by which its attempts ended, in the order of their ends.
    pub fn ends<'a>(&self, shared: &'a PoolShared) -> &'a [u64]
        ensures ends { result.now ≡ closed_by (lookup_at shared.now self.now.number) }
        ensures fair { (l : Seen) → lookup_at shared.now self.now.number ≡ Some l → IsFairly l.lookup }
    {
        shared.ends(self.number)
    }

    /// Ends this interest in the lookup. The last one that does withdraws its open orders.
    pub fn leave(self, shared: &mut PoolShared)
        ensures left { shared.new ≡ record shared.old { lookups = after_leave self.number shared.old.lookups } }
        ensures last { is_last self.number shared.old.lookups ≡ true → lookup_at shared.new self.number ≡ None }
    {
        shared.leave(self.number);
    }

    /// The numbers of its open orders, rising.
    pub fn open_orders(&self, alloc: Global, shared: &PoolShared) -> Result<Numbers, NoMemory>
        ensures those { IfOk result (λ ns. (n : ℕ) → Contains ns n ↔ ((l : Seen) × IsOpenOrder n self.now.number l shared.now)) }
        ensures rising { IfOk result IsStrictlyIncreasing }
    {
        shared.open_orders(alloc, self.number)
    }
}
