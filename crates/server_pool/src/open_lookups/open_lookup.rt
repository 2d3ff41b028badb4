//! The lookups at pools that are under way, by their numbers. Each function here changes, or reads, one
//! of them.
ghost use Rattle.std.specs.Prelude.{◌≡◌, ◌<◌, ◌+◌, ◌^◌, ℕ, true, Ok, Err, Some, None, IfSome, IfOk, OnErr, MatchResult, if◌then◌else◌};
ghost use Rattle.std.specs.BTreeMap.{is_at};
ghost use Rattle.std.specs.Map.{remove_entry};
ghost use Rattle.std.specs.Ordering.{nat_cmp};
ghost use Rattle.server_core.specs.Servers.{Server};
ghost use Rattle.pool_lookup.specs.Hearing.{done_by, RunsOut};
ghost use Rattle.pool_lookup.specs.Holds.{IsSound, AreReached};
ghost use Rattle.server_pool.specs.OpenLookups.{under, with_at, is_for, open_for, joined, left, is_last, is_open_in};
ghost use Rattle.server_pool.specs.LookupSteps.{IsStepAt, IsHaltedAt, put_table, with_put};
ghost use Rattle.server_pool.specs.declared.open_lookups.open_lookup.OpenLookup.{OpenLookup as Seen};

use dns_core::{Boxed, DnsRequest, NetError, NoMemory};
use pool_lookup::{Lookup, LookupStep};
use pool_rules::same_key;
use server_core::{After, Outcome, PoolContext, ServerTable, Tick};
use std::alloc::Global;
use std::collections::BTreeMap;

/// A lookup at the pool of a number, and how many wait for it.
#[derive(Drop)]
pub struct OpenLookup {
    pub pool: u64,
    pub waiters: u64,
    pub lookup: Boxed<Lookup>,
}

impl OpenLookup {
    /// Whether it has no answer yet, and is one of the pool of a number, for a request of the same key.
    fn is_for(&self, pool: u64, request: &DnsRequest) -> bool
        ensures { result ≡ is_for pool request.now self.now }
    {
        let lookup = self.lookup.get();
        !lookup.is_decided() && self.pool == pool && same_key(lookup.request(), request)
    }
}

/// The number of the lookup that a request at the pool of a number joins.
pub fn open_for(lookups: &BTreeMap<u64, OpenLookup>, pool: u64, request: &DnsRequest) -> Option<u64>
    ensures first { result ≡ open_for pool request.now lookups.now.entries }
    ensures there { IfSome result (λ n. (l : Seen) × (under n lookups.now.entries ≡ Some l) × (is_for pool request.now l ≡ true)) }
{
    for (number, open) in lookups {
        if open.is_for(pool, request) {
            return Some(*number);
        }
    }
    None
}

/// One more waits for the lookup of a number.
pub fn join_at(lookups: &mut BTreeMap<u64, OpenLookup>, lookup: u64)
    requires { (l : Seen) → under lookup lookups.old.entries ≡ Some l → l.waiters + 1 < 2 ^ 64 }
    ensures { lookups.new.entries ≡ with_at lookup joined lookups.old.entries }
{
    if let Some(open) = lookups.get_mut(&lookup) {
        open.waiters += 1;
    }
}

/// Whether at most one waits for the lookup of a number.
pub fn is_last(lookups: &BTreeMap<u64, OpenLookup>, lookup: u64) -> bool
    ensures { result ≡ is_last lookup lookups.now.entries }
{
    match lookups.get(&lookup) {
        Some(open) => open.waiters <= 1,
        None => true,
    }
}

/// One fewer waits for the lookup of a number.
pub fn leave_at(lookups: &mut BTreeMap<u64, OpenLookup>, lookup: u64)
    ensures { lookups.new.entries ≡ with_at lookup left lookups.old.entries }
{
    if let Some(open) = lookups.get_mut(&lookup) {
        open.waiters = open.waiters.saturating_sub(1);
    }
}

/// Takes the lookup of a number away.
pub fn take_lookup(lookups: &mut BTreeMap<u64, OpenLookup>, lookup: u64)
    ensures entries { lookups.new.entries ≡ remove_entry (is_at (nat_cmp lookup)) lookups.old.entries }
    ensures each { (n : ℕ) → under n lookups.new.entries ≡ (if is_at (nat_cmp lookup) n then None else under n lookups.old.entries) }
    ensures gone { under lookup lookups.new.entries ≡ None }
{
    let _left = lookups.remove(&lookup);
}

/// Whether the order of a number is open at the lookup of a number.
pub fn is_open_in(lookups: &BTreeMap<u64, OpenLookup>, lookup: u64, number: u64) -> bool
    ensures { result ≡ is_open_in number lookups.now.entries lookup }
{
    match lookups.get(&lookup) {
        Some(open) => open.lookup.get().has_order(number),
        None => false,
    }
}

/// The next step of the lookup of a number, with an order of a number. One that is not there has no
/// connection.
pub fn step_at(
    lookups: &mut BTreeMap<u64, OpenLookup>,
    alloc: Global,
    table: &mut ServerTable,
    cx: &mut PoolContext,
    lookup: u64,
    number: u64,
    tick: Tick,
) -> Result<LookupStep, NoMemory>
    requires holds { (l : Seen) → under lookup lookups.old.entries ≡ Some l → IsSound l.lookup }
    requires reached { (l : Seen) → under lookup lookups.old.entries ≡ Some l → AreReached table.old l.lookup }
    ensures ok { (l : Seen) → under lookup lookups.old.entries ≡ Some l
        → IfOk result (λ made. IsStepAt lookup number tick.now l lookups.old.entries table.old made lookups.new.entries table.new) }
    ensures err { (l : Seen) → under lookup lookups.old.entries ≡ Some l
        → OnErr result (IsHaltedAt lookup tick.now l lookups.old.entries table.old lookups.new.entries table.new) }
    ensures gone { under lookup lookups.old.entries ≡ None
        → (result ≡ Ok (LookupStep.Done (Err NetError.NoConnections))) × (lookups.new.entries ≡ lookups.old.entries) × (table.new ≡ table.old) }
    ensures context { cx.new ≡ cx.old }
{
    match lookups.get_mut(&lookup) {
        Some(open) => open.lookup.get_mut().next(alloc, table, cx, number, tick),
        None => Ok(LookupStep::Done(Err(NetError::NoConnections))),
    }
}

/// The lookup of a number takes the outcome of its order of a number. For one that is not there it is
/// late.
pub fn put_at(
    lookups: &mut BTreeMap<u64, OpenLookup>,
    alloc: Global,
    table: &mut ServerTable,
    cx: &mut PoolContext,
    lookup: u64,
    number: u64,
    outcome: Outcome,
    tick: Tick,
) -> Result<After, NoMemory>
    requires holds { (l : Seen) → under lookup lookups.old.entries ≡ Some l → IsSound l.lookup }
    requires reached { (l : Seen) → under lookup lookups.old.entries ≡ Some l → AreReached table.old l.lookup }
    ensures did { (l : Seen) → under lookup lookups.old.entries ≡ Some l
        → MatchResult result (λ after. after ≡ done_by tick.patience number outcome l.lookup) (λ error. RunsOut number outcome l.lookup) }
    ensures lookups { (l : Seen) → under lookup lookups.old.entries ≡ Some l
        → lookups.new.entries ≡ with_put cx.old tick number outcome result lookup l lookups.old.entries }
    ensures table { (l : Seen) → under lookup lookups.old.entries ≡ Some l → table.new ≡ put_table tick number outcome result l.lookup table.old }
    ensures gone { under lookup lookups.old.entries ≡ None
        → (result ≡ Ok After.Late) × (lookups.new.entries ≡ lookups.old.entries) × (table.new ≡ table.old) }
    ensures context { cx.new ≡ cx.old }
{
    match lookups.get_mut(&lookup) {
        Some(open) => open
            .lookup
            .get_mut()
            .put(alloc, table, cx, number, outcome, tick),
        None => {
            drop(outcome);
            Ok(After::Late)
        }
    }
}
