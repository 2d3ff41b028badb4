//! The servers that were met, each under its address, the pools of them, and the lookups that are under
//! way at these.
ghost use Rattle.std.specs.Prelude.{◌≡◌, ◌↔◌, ◌<◌, ◌+◌, ◌==◌, ℕ, false, length, Some, None, Ok, Err, IfOk, IfSome, IsSome, OnOk, OnErr, IsTrue, option_copied};
ghost use Rattle.std.specs.List.{AllZip};
ghost use Rattle.std.specs.declared.net.ip_addr.IpAddr.{IpAddr};
ghost use Rattle.dns_core.specs.declared.message.Query.{Query};
ghost use Rattle.server_core.specs.Servers.{IsFirstDelay};
ghost use Rattle.walk_lookup.specs.Order.{HoldsOn};
ghost use Rattle.walk_lookup.specs.LogView.{LogView, Advances};
ghost use Rattle.walk_lookup.specs.Asking.{context_of};
ghost use Rattle.recursor_types.specs.declared.policy.Policy.{Policy};
ghost use Rattle.walk_lookup.specs.Delays.{turn_at, delay_at};
ghost use Rattle.walk_tables.specs.Pools.{number_of, sought_at, came_at, IfCame, ServersHold, PoolsHold, IsOutcomeOf, IsGrown, HasForgotten, HasNoted, HasKept, HasLeft, HasGone, StepGoes, IsGivenFor, NotesOutcome, Seeks, IsStepAt, given_so_far, GivesNext};
ghost use Rattle.walk_lookup.specs.PendingLookup.{first_delay_at, IsServerOf, with_came, aim_of, first_of, polled_by, ServersForQuery, noted};
ghost use Rattle.walk_tables.specs.Lookup.{AnswerHolds};
ghost use Rattle.walk_lookup.specs.Remembered.{remembered};
ghost use Rattle.walk_lookup.specs.Coming.{answer_at, with_sought};
ghost use Rattle.walk_tables.specs.Taking.{telling_at, Took, Takes, Comes, TablesHold, is_open_at, awaited_in, IfAwaits};
ghost use Rattle.server_pool.specs.Orders.{open_at};
ghost use Rattle.walk_lookup.specs.declared.pending_lookup.OpenOrder.{OpenOrder};

use dns_core::{
    Boxed, Delays, DnsRequest, Message, Name, NetError, NoMemory, Numbers, Query, TryClone,
};
use recursor_types::Policy;
use resolver_cache::ResponseCache;
use resolver_settings::NameServerConfig;
use server_core::{After, NameServer, Order, Outcome, SentBy, Tick};
use server_pool::{NameServerPool, PoolLookup, PoolShared, PoolStep};
use std::alloc::Global;
use std::collections::BTreeMap;
use std::mem;
use std::net::IpAddr;
use walk_lookup::{
    FirstDelay, LookupResult, OpenOrder, PendingLookup, aim_of, first_delay, first_of, found_by,
    is_memory, last_of, polled_by, pool_context, write_verdict,
};

/// What a lookup came to, and the entries of its ends.
#[derive(Drop)]
pub struct Answer {
    pub came: Boxed<LookupResult>,
    pub ends: Numbers,
}

/// What a lookup has next: an order with its number, one that it waits for, or its answer.
#[derive(Drop)]
pub enum PoolsStep {
    Order { number: u64, order: Order },
    Waiting { number: u64 },
    Done,
}

/// What the pools share, the number of each server under its address, and what is sought by each lookup
/// that is under way, under its number. New servers take the first delays in turn, of which `turn` is
/// the next.
pub struct Pools {
    shared: PoolShared,
    numbers: BTreeMap<IpAddr, u32>,
    first_delays: Delays,
    turn: usize,
    sought: BTreeMap<u64, Boxed<PendingLookup>>,
}

impl Drop for Pools {
    fn drop(self) {
        let Pools {
            shared: _,
            numbers: _,
            first_delays: _,
            turn: _,
            sought: _,
        } = self;
    }
}

/// A copy of numbers.
fn copy_of(alloc: Global, numbers: &[u64]) -> Result<Numbers, NoMemory>
    ensures { IfOk result (λ copy. copy ≡ numbers.now) }
{
    Ok(Numbers::new(Vec::from_slice(alloc, numbers)?))
}

impl Pools {
    /// Without servers. The first of them begins with the first of the delays.
    pub fn new(alloc: Global, policy: &Policy) -> Result<Pools, NoMemory>
        ensures holds { (view : LogView) → view.policy ≡ policy.now → 0 < policy.now.timeout → IfOk result (PoolsHold view) }
        ensures context { IfOk result (λ pools. pools.shared.context ≡ context_of policy.now) }
        ensures delays { IfOk result (λ pools. (pools.first_delays ≡ policy.now.first_delays) × (pools.turn ≡ 0)) }
    {
        let context = pool_context(alloc, policy)?;
        Ok(Pools {
            shared: PoolShared::new(alloc, context),
            numbers: BTreeMap::new(alloc),
            first_delays: policy.first_delays.try_clone(alloc)?,
            turn: 0,
            sought: BTreeMap::new(alloc),
        })
    }

    /// The delay with which the next server begins, in microseconds.
    fn take_first_delay(&mut self) -> u8
        ensures first { IsFirstDelay result }
        ensures delay { result ≡ delay_at self.old.first_delays (turn_at (length self.old.first_delays) self.old.turn) }
        ensures turn { self.new.turn ≡ turn_at (length self.old.first_delays) self.old.turn + 1 }
        ensures delays { self.new.first_delays ≡ self.old.first_delays }
        ensures same { (self.new.shared ≡ self.old.shared) × (self.new.numbers ≡ self.old.numbers) × (self.new.sought ≡ self.old.sought) }
    {
        let FirstDelay { micros, next } = first_delay(self.first_delays.items(), self.turn);
        self.turn = next;
        micros
    }

    /// Makes the server of an address that has none yet. It begins with the delay whose turn it is.
    fn add(&mut self, alloc: Global, ip: IpAddr) -> Result<u32, NoMemory>
        requires { number_of self.old ip ≡ None }
        ensures grown { IsGrown self.old self.new }
        ensures servers { (policy : Policy) → ServersHold policy self.old → ServersHold policy self.new }
        ensures met { IfOk result (λ number. IsServerOf self.new.shared.table ip number) }
        ensures delay { IfOk result (λ number. first_delay_at self.new.shared.table number ≡ Some (delay_at self.old.first_delays (turn_at (length self.old.first_delays) self.old.turn))) }
    {
        let config = NameServerConfig::udp_and_tcp(alloc, ip)?;
        let delay = self.take_first_delay();
        let options = self.shared.context().options();
        let server = NameServer::new(alloc, Vec::new(alloc), config, options, delay)?;
        let number = self.shared.add(alloc, server)?;
        let _before = self.numbers.insert(ip, number)?;
        Ok(number)
    }

    /// The number of the server of an address, which is a new one where it was not met.
    fn server_for(&mut self, alloc: Global, ip: IpAddr) -> Result<u32, NoMemory>
        ensures grown { IsGrown self.old self.new }
        ensures servers { (policy : Policy) → ServersHold policy self.old → ServersHold policy self.new }
        ensures met { (policy : Policy) → ServersHold policy self.old → IfOk result (λ number. IsServerOf self.new.shared.table ip number) }
    {
        match self.numbers.get(&ip) {
            Some(number) => Ok(*number),
            None => self.add(alloc, ip),
        }
    }

    /// The numbers of the servers of these addresses, in their order.
    fn servers_for(&mut self, alloc: Global, ips: &[IpAddr]) -> Result<Vec<u32>, NoMemory>
        ensures grown { IsGrown self.old self.new }
        ensures servers { (policy : Policy) → ServersHold policy self.old → ServersHold policy self.new }
        ensures met { (policy : Policy) → ServersHold policy self.old → IfOk result (λ numbers. AllZip (IsServerOf self.new.shared.table) ips.now numbers.items) }
    {
        let mut servers = Vec::with_capacity(alloc, ips.len())?;
        for ip in ips {
            let number = self.server_for(alloc, *ip)?;
            servers.push(number)?;
        }
        Ok(servers)
    }
}

/// What is sought for a question at the servers of a zone that is asked from a moment on.
fn sought_from(
    alloc: Global,
    query: &Query,
    zone: &Name,
    now: u64,
) -> Result<Boxed<PendingLookup>, NoMemory>
    ensures { IfOk result (λ sought. sought ≡ record { query = query.now; zone = zone.now; start = now; given = None; first = None; at = now; came = None }) }
{
    let query = query.try_clone(alloc)?;
    let zone = zone.try_clone(alloc)?;
    Boxed::new(
        alloc,
        PendingLookup {
            query,
            zone,
            start: now,
            given: None,
            first: None,
            at: now,
            came: None,
        },
    )
}

impl Pools {
    /// Keeps what is sought by a lookup, which is left where memory runs out.
    fn keep(
        &mut self,
        lookup: PoolLookup,
        sought: Boxed<PendingLookup>,
    ) -> Result<PoolLookup, NoMemory>
        ensures ok { IfOk result (λ kept. HasKept lookup.number sought self.old self.new × (kept ≡ lookup)) }
        ensures err { OnErr result (HasLeft lookup.number self.old self.new) }
    {
        match self.sought.insert(lookup.number(), sought) {
            Ok(_before) => Ok(lookup),
            Err(_) => {
                lookup.leave(&mut self.shared);
                Err(NoMemory)
            }
        }
    }

    /// Begins a lookup of a request at all servers of a zone, at a moment.
    pub fn begin(
        &mut self,
        alloc: Global,
        zone: &Name,
        ips: &[IpAddr],
        request: DnsRequest,
        tick: Tick,
    ) -> Result<PoolLookup, NoMemory>
        ensures holds { (view : LogView) → tick.now ≡ view.moment → ServersForQuery view request.query zone.now ips.now → PoolsHold view self.old → PoolsHold view self.new }
        ensures given { given_so_far self.new ≡ given_so_far self.old }
    {
        let sought = sought_from(alloc, &request.query, zone, tick.now)?;
        let servers = self.servers_for(alloc, ips)?;
        let pool = NameServerPool::from_nameservers(alloc, servers, &mut self.shared)?;
        let lookup = pool.into_lookup(alloc, &mut self.shared, request, tick)?;
        self.keep(lookup, sought)
    }

    /// Forgets what is sought by the lookup of a number.
    fn forget(&mut self, lookup: u64)
        ensures { HasForgotten lookup self.old self.new }
    {
        let _sought = self.sought.remove(&lookup);
    }

    /// Keeps which order of a lookup is open, to which address its first send goes, where that was not
    /// known, and when its last end came, where it is another. What it comes to is not known then.
    fn note(
        &mut self,
        lookup: u64,
        given: Option<OpenOrder>,
        first: Option<IpAddr>,
        at: Option<u64>,
    )
        ensures { HasNoted lookup (noted given first at) self.old self.new }
    {
        match self.sought.get_mut(&lookup) {
            Some(sought) => {
                let sought = sought.get_mut();
                sought.given = given;
                sought.first = sought.first.or(first);
                sought.at = at.unwrap_or(sought.at);
                sought.came = None;
            }
            None => {}
        }
    }

    /// Whether an order is open at a lookup.
    fn is_open_at(&self, lookup: u64, number: u64) -> bool
        ensures { result ≡ is_open_at self.now lookup number }
    {
        match self.shared.open_at(number) {
            Some(at) => at == lookup,
            None => false,
        }
    }

    /// The order that a lookup waits for, where one is open at it.
    pub fn awaited(&self, lookup: u64) -> Option<u64>
        ensures { result ≡ awaited_in self.now lookup }
    {
        let sought = self.sought.get(&lookup)?.get();
        let given = sought.given?;
        if self.is_open_at(lookup, given.number) {
            Some(given.number)
        } else {
            None
        }
    }

    /// Whether it is known what a lookup came to.
    fn has_come(&self, lookup: u64) -> bool
        ensures { IsTrue result → IsSome (came_at self.now lookup) }
    {
        match self.sought.get(&lookup) {
            Some(sought) => sought.get().came.is_some(),
            None => false,
        }
    }

    /// What a lookup has next: the order that it waits for, a new one, which no entry was put after, or
    /// its answer, where it is known then what it came to. Where memory runs out, it is no longer under
    /// way.
    pub fn next(
        &mut self,
        alloc: Global,
        lookup: &mut PoolLookup,
        since: u64,
        tick: Tick,
    ) -> Result<PoolsStep, NoMemory>
        ensures holds { (view : LogView) → IsStepAt view since tick → PoolsHold view self.old → PoolsHold view self.new }
        ensures goes { (view : LogView) → IsStepAt view since tick → PoolsHold view self.old → IfOk result (StepGoes view) }
        ensures waits { IfOk result (IfAwaits (awaited_in self.new lookup.old.number)) }
        ensures given { GivesNext (given_so_far self.old) (given_so_far self.new) result }
        ensures came { IfOk result (IfCame (came_at self.new lookup.old.number)) }
        ensures same { lookup.new ≡ lookup.old }
    {
        let n = lookup.number();
        if self.has_come(n) {
            return Ok(PoolsStep::Done);
        }
        match self.awaited(n) {
            Some(number) => Ok(PoolsStep::Waiting { number }),
            None => self.step(alloc, lookup, since, tick),
        }
    }

    /// The next step of a lookup that waits for no order.
    fn step(
        &mut self,
        alloc: Global,
        lookup: &mut PoolLookup,
        since: u64,
        tick: Tick,
    ) -> Result<PoolsStep, NoMemory>
        ensures holds { (view : LogView) → IsStepAt view since tick → PoolsHold view self.old → PoolsHold view self.new }
        ensures goes { (view : LogView) → IsStepAt view since tick → PoolsHold view self.old → IfOk result (StepGoes view) }
        ensures waits { IfOk result (IfAwaits (awaited_in self.new lookup.old.number)) }
        ensures given { GivesNext (given_so_far self.old) (given_so_far self.new) result }
        ensures came { IfOk result (IfCame (came_at self.new lookup.old.number)) }
        ensures same { lookup.new ≡ lookup.old }
    {
        let n = lookup.number();
        if !self.sought.contains_key(&n) {
            return Err(NoMemory);
        }
        match lookup.next(alloc, &mut self.shared, tick) {
            Ok(PoolStep::Order { number, order }) => {
                let aim = aim_of(&order);
                let given = OpenOrder {
                    number,
                    aim,
                    since,
                    polled: None,
                };
                self.note(n, Some(given), None, None);
                Ok(PoolsStep::Order { number, order })
            }
            Ok(PoolStep::Done(told)) => {
                self.note(n, None, None, None);
                self.decide(alloc, n, told)?;
                Ok(PoolsStep::Done)
            }
            Ok(PoolStep::Waiting) => {
                self.forget(n);
                Err(NoMemory)
            }
            Err(NoMemory) => {
                self.forget(n);
                Err(NoMemory)
            }
        }
    }

    /// What is known of the open order of a number at a lookup, where this is an outcome of it.
    fn given_for(
        &self,
        lookup: u64,
        number: u64,
        outcome: &Outcome,
        waits: Option<&SentBy>,
    ) -> Option<OpenOrder>
        ensures some { IfSome result (λ g. (g.number ≡ number) × IsGivenFor self.now lookup (option_copied waits.entry) outcome.now g) }
        ensures none { result ≡ None → (g : OpenOrder) → g.number ≡ number → IsGivenFor self.now lookup (option_copied waits.entry) outcome.now g → ⊥ }
    {
        let ended = !self.shared.ends(lookup).is_empty();
        let sought = self.sought.get(&lookup)?.get();
        let given = sought.given?;
        if given.number == number && sought.may_take(ended, &given, outcome, waits) {
            Some(given)
        } else {
            None
        }
    }

    /// Keeps what an outcome did to a lookup that had so many ends before.
    fn note_outcome(
        &mut self,
        lookup: u64,
        given: OpenOrder,
        first: Option<IpAddr>,
        before: usize,
        after: After,
        now: u64,
    )
        ensures { NotesOutcome lookup given first before after now self.old self.new }
    {
        let ended = before < self.shared.ends(lookup).len();
        let given = match after {
            After::Kept => Some(given),
            After::GiveUp | After::Ended | After::Late => None,
        };
        let at = if ended { Some(now) } else { None };
        self.note(lookup, given, first, at);
    }

    /// Takes the outcome of an order that is open at a lookup, of which this is known.
    fn take(
        &mut self,
        alloc: Global,
        lookup: u64,
        given: OpenOrder,
        outcome: Outcome,
        waits: Option<&SentBy>,
        tick: Tick,
    ) -> Result<After, NoMemory>
        requires open { open_at given.number self.old.shared ≡ Some lookup }
        requires given { IsGivenFor self.old lookup (option_copied waits) outcome given }
        ensures took { IfOk result (Took self.old self.new lookup given.number outcome tick) }
        ensures given { given_so_far self.new ≡ given_so_far self.old }
        ensures holds { HoldsOn tick (option_copied waits.entry) outcome result (λ view. PoolsHold view self.old) (λ view. PoolsHold view self.new) }
    {
        let first = first_of(&given, &outcome, waits);
        let given = OpenOrder {
            polled: polled_by(&outcome),
            ..given
        };
        let before = self.shared.ends(lookup).len();
        match self.shared.put(alloc, given.number, outcome, tick) {
            Ok(after) => {
                self.note_outcome(lookup, given, first, before, after, tick.now);
                Ok(after)
            }
            Err(_) => {
                self.forget(lookup);
                Err(NoMemory)
            }
        }
    }

    /// What a lookup came to that was answered so. Want of memory is nothing that it came to.
    fn found(
        &self,
        alloc: Global,
        lookup: u64,
        told: Result<Message, NetError>,
    ) -> Result<Option<Boxed<LookupResult>>, NoMemory>
        ensures comes { answer_at self.now.shared lookup ≡ Some told → IfOk result (Comes self.now lookup) }
        ensures sought { IfOk result (λ came. IsSome came → IsSome (sought_at self.now lookup)) }
    {
        let Some(sought) = self.sought.get(&lookup) else {
            drop(told);
            return Ok(None);
        };
        if is_memory(&told) {
            drop(told);
            return Ok(None);
        }
        let sought = sought.get();
        let entry = last_of(self.shared.ends(lookup));
        let found = Boxed::new(alloc, found_by(entry, told, &sought.query, &sought.zone))?;
        Ok(Some(found))
    }

    /// What a lookup came to by its answer, where it was answered.
    fn comes(&self, alloc: Global, lookup: u64) -> Result<Option<Boxed<LookupResult>>, NoMemory>
        ensures { IfOk result (Comes self.now lookup) }
    {
        match self.shared.answer(alloc, lookup)? {
            Some(told) => self.found(alloc, lookup, told),
            None => Ok(None),
        }
    }

    /// Writes what a lookup came to into the cache, where it is a response that is kept.
    fn remember(
        &self,
        alloc: Global,
        cache: &mut ResponseCache,
        lookup: u64,
        came: &Option<Boxed<LookupResult>>,
    ) -> Result<(), NoMemory>
        ensures ok { OnOk result (cache.new ≡ with_sought cache.old (sought_at self.now lookup) came.now) }
        ensures err { OnErr result (cache.new ≡ cache.old) }
    {
        let Some(sought) = self.sought.get(&lookup) else {
            return Ok(());
        };
        let Some(came) = came else {
            return Ok(());
        };
        let sought = sought.get();
        match came.get() {
            LookupResult::Told {
                entry,
                verdict: Ok(verdict),
            } => write_verdict(alloc, cache, &sought.query, *entry, sought.at, verdict),
            LookupResult::Told {
                verdict: Err(_),
                ..
            } => Ok(()),
            LookupResult::Error(_) => Ok(()),
        }
    }

    /// What a lookup came to by its answer, which is written into the cache where it is a response that
    /// is kept.
    fn conclude(
        &self,
        alloc: Global,
        cache: &mut ResponseCache,
        lookup: u64,
    ) -> Result<Option<Boxed<LookupResult>>, NoMemory>
        ensures ok { OnOk result (cache.new ≡ remembered cache.old (telling_at self.now lookup)) }
        ensures comes { IfOk result (Comes self.now lookup) }
        ensures err { OnErr result (cache.new ≡ cache.old) }
    {
        let came = self.comes(alloc, lookup)?;
        self.remember(alloc, cache, lookup, &came)?;
        Ok(came)
    }

    /// Keeps what a lookup came to, or that nothing is known of it.
    fn keep_came(&mut self, lookup: u64, came: Option<Boxed<LookupResult>>)
        ensures { HasNoted lookup (with_came came) self.old self.new }
    {
        match self.sought.get_mut(&lookup) {
            Some(sought) => sought.get_mut().came = came,
            None => {}
        }
    }

    /// Keeps what a lookup came to that was answered so. Where memory ran out for it, it is no longer
    /// under way.
    fn decide(
        &mut self,
        alloc: Global,
        lookup: u64,
        told: Result<Message, NetError>,
    ) -> Result<(), NoMemory>
        ensures came { OnOk result (IsSome (came_at self.new lookup)) }
        ensures holds { (view : LogView) → answer_at self.old.shared lookup ≡ Some told → PoolsHold view self.old → PoolsHold view self.new }
        ensures given { given_so_far self.new ≡ given_so_far self.old }
    {
        match self.found(alloc, lookup, told) {
            Ok(Some(found)) => {
                self.keep_came(lookup, Some(found));
                Ok(())
            }
            Ok(None) | Err(NoMemory) => {
                self.forget(lookup);
                Err(NoMemory)
            }
        }
    }

    /// Takes the outcome of the order of a number. With a poll that found nothing is handed in what it
    /// waits for. An outcome is late, and changes nothing, where the order is open at no lookup, or the
    /// outcome is none of this order. What a lookup comes to by it is written into the cache, where it is
    /// kept; where memory runs out for this the outcome is taken all the same. Where memory runs out for
    /// the outcome itself, the lookup is no longer under way.
    pub fn put(
        &mut self,
        alloc: Global,
        cache: &mut ResponseCache,
        number: u64,
        outcome: Outcome,
        waits: Option<&SentBy>,
        tick: Tick,
    ) -> Result<After, NoMemory>
        ensures takes { IfOk result (Takes cache.old cache.new self.old self.new number outcome tick) }
        ensures late { (result ≡ Ok After.Late) ↔ (IsOutcomeOf self.old number (option_copied waits.entry) outcome → ⊥) }
        ensures err { OnErr result (cache.new ≡ cache.old) }
        ensures given { given_so_far self.new ≡ given_so_far self.old }
        ensures holds { HoldsOn tick (option_copied waits.entry) outcome result (λ view. TablesHold view cache.old self.old) (λ view. TablesHold view cache.new self.new) }
    {
        let Some(lookup) = self.shared.open_at(number) else {
            drop(outcome);
            return Ok(After::Late);
        };
        let Some(given) = self.given_for(lookup, number, &outcome, waits) else {
            drop(outcome);
            return Ok(After::Late);
        };
        let after = self.take(alloc, lookup, given, outcome, waits, tick)?;
        let came = self.conclude(alloc, cache, lookup)?;
        self.keep_came(lookup, came);
        Ok(after)
    }

    /// Whether a lookup is for this question at the servers of this zone, since no earlier than the
    /// moment.
    fn seeks(&self, lookup: u64, query: &Query, zone: &Name, begun: u64) -> bool
        ensures { IsTrue result → Seeks self.now lookup query.now zone.now begun }
    {
        match self.sought.get(&lookup) {
            Some(sought) => sought.get().is_for(query, zone, begun),
            None => false,
        }
    }

    /// Takes what is kept of what a lookup came to.
    fn take_kept(&mut self, lookup: u64) -> Option<Boxed<LookupResult>>
        ensures noted { HasNoted lookup (with_came None) self.old self.new }
        ensures kept { result ≡ came_at self.old lookup }
    {
        match self.sought.get_mut(&lookup) {
            Some(sought) => mem::replace(&mut sought.get_mut().came, None),
            None => None,
        }
    }

    /// Takes what a lookup for a question at the servers of a zone, since no earlier than a moment, came
    /// to, where that is known.
    pub fn answer(
        &mut self,
        alloc: Global,
        lookup: &PoolLookup,
        query: &Query,
        zone: &Name,
        begun: u64,
    ) -> Result<Option<Answer>, NoMemory>
        ensures answer { (view : LogView) → PoolsHold view self.old
            → IfOk result (λ answer. IfSome answer (AnswerHolds view begun zone.now query.now)) }
        ensures some { IsSome (came_at self.old lookup.now.number) → IfOk result IsSome }
        ensures holds { (view : LogView) → PoolsHold view self.old → PoolsHold view self.new }
        ensures given { given_so_far self.new ≡ given_so_far self.old }
    {
        let n = lookup.number();
        if !self.seeks(n, query, zone, begun) {
            return Err(NoMemory);
        }
        let ends = copy_of(alloc, lookup.ends(&self.shared))?;
        match self.take_kept(n) {
            Some(came) => Ok(Some(Answer { came, ends })),
            None => Ok(None),
        }
    }

    /// Ends the interest in a lookup.
    pub fn leave(&mut self, lookup: PoolLookup)
        ensures holds { (view : LogView) → PoolsHold view self.old → PoolsHold view self.new }
        ensures gone { HasGone lookup.number self.old self.new }
        ensures given { given_so_far self.new ≡ given_so_far self.old }
    {
        self.forget(lookup.number());
        lookup.leave(&mut self.shared);
    }

    /// Ends the interest in all lookups.
    pub fn clear(&mut self)
        ensures holds { (view later : LogView) → Advances view later → PoolsHold view self.old → PoolsHold later self.new }
        ensures gone { (n : ℕ) → sought_at self.new n ≡ None }
        ensures given { given_so_far self.new ≡ given_so_far self.old }
    {
        self.sought.clear();
    }
}
