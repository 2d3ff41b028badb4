//! The machine: it gives orders and is fed their outcomes, and knows neither a provider nor a log.
ghost use Rattle.std.specs.Prelude.{◌≡◌, ◌≤◌, ◌<◌, ◌⊎◌, ◌↔◌, ℕ, [], true, false, max, min, length, None, Some, Ok, Err, IfOk, IfSome, IfNone, IfErr, IsSome, OnOk, IsTrue, option_copied, if◌then◌else◌};
ghost use Rattle.recursor_walk.specs.Way.{CanWalk};
ghost use Rattle.dns_core.specs.Log.{Log};
ghost use Rattle.server_core.specs.Order.{entry_of};
ghost use Rattle.walk_lookup.specs.Order.{IsNext, is_given_up, closing_of, last_entry};
ghost use Rattle.walk_tables.specs.Taking.{Takes, TablesHold};
ghost use Rattle.std.specs.BTreeSet.{contains};
ghost use Rattle.std.specs.Ordering.{nat_cmp};
ghost use Rattle.resolver_settings.specs.Ttl.{has_reversed};
ghost use Rattle.walk_lookup.specs.Asking.{connect_of, context_of};
ghost use Rattle.recursor_types.specs.Policy.{with_patience};
ghost use Rattle.walk_tables.specs.Pools.{IsOutcomeOf};
ghost use Rattle.recursor_core.specs.Derived.{seen_by, Derived};
ghost use Rattle.recursor_core.specs.Machine.{TellsTo, resolution_at, need_at, open_at, given_by, Steps, StepGives, IsBeginError, IsNewCore, SameCore, IsOneMore, IsBegunAt};

use crate::machine::policy_with_context::PolicyWithContext;
use dns_core::{ConnectOptions, NoMemory, Question, TryClone, in_box};
use recursor_question::{NextStep, Resolution, Step};
use recursor_types::{MessageKind, Policy, RecursorError, RecursorOptions};
use resolver_cache::ResponseCache;
use server_core::{After, Outcome, PoolContext, SentBy, Tick};
use std::alloc::Global;
use std::collections::BTreeSet;
use std::mem;
use std::net::IpAddr;
use walk_lookup::connect_options;
use walk_tables::Pools;

/// The resolutions, in the order of their beginning, each kept until it has ended, and what they share: the
/// cache of responses, the servers that were met and the lookups at them, the greatest moment handed in so
/// far, and the greatest number of a log entry.
#[derive(Drop)]
pub struct RecursorCore {
    policy: PolicyWithContext,
    cache: ResponseCache,
    resolutions: Vec<Option<Box<Resolution>>>,
    pools: Pools,
    moment: u64,
    greatest: u64,
}

/// An empty cache as the policy says.
fn cache_of(alloc: Global, policy: &Policy) -> Result<ResponseCache, NoMemory>
    requires { has_reversed policy.now.ttl_bounds ≡ false }
    ensures { IfOk result (λ cache. cache ≡ record { size = policy.now.response_cache_size; config = policy.now.ttl_bounds; entries = [] }) }
{
    let bounds = policy.ttl_bounds.try_clone(alloc)?;
    let Ok(cache) = ResponseCache::new(alloc, policy.response_cache_size, bounds) else {
        unreachable!()
    };
    Ok(cache)
}

/// The entry by which an order ends that is given up after an outcome: where it still waits for what was
/// sent, that is the next one.
fn closing_of(outcome: &Outcome, waits: Option<&SentBy>) -> u64
    ensures { result ≡ closing_of (option_copied waits.entry) outcome.now }
{
    match (outcome, waits) {
        (Outcome::Pending { entry, .. }, Some(_)) => entry.saturating_add(1),
        (outcome, _) => outcome.entry(),
    }
}

/// The last entry that is put with an outcome. An order is given up by whoever carries it after its last
/// poll, and where memory runs out.
fn last_entry(after: &Result<After, NoMemory>, entry: u64, closing: u64) -> u64
    ensures { result ≡ (if is_given_up after.now then closing else entry) }
{
    match after {
        Ok(After::GiveUp) => closing,
        Ok(After::Kept | After::Ended | After::Late) => entry,
        Err(NoMemory) => closing,
    }
}

impl RecursorCore {
    /// A machine that begins at these roots, with an empty cache.
    pub fn new(
        alloc: Global,
        roots: &[IpAddr],
        options: RecursorOptions,
    ) -> Result<RecursorCore, NoMemory>
        requires { has_reversed options.cache_policy ≡ false }
        ensures { IfOk result (IsNewCore roots.now options) }
    {
        let policy = Policy::new(alloc, roots, &options)?;
        let cache = cache_of(alloc, &policy)?;
        let pools = Pools::new(alloc, &policy)?;
        let policy = PolicyWithContext::new(alloc, policy)?;
        Ok(RecursorCore {
            policy,
            cache,
            resolutions: Vec::new(alloc),
            pools,
            moment: 0,
            greatest: 0,
        })
    }

    /// The greatest moment handed in so far.
    pub fn moment(&self) -> u64
        ensures { result ≡ self.now.moment }
    {
        self.moment
    }

    /// What its pools of servers are set to.
    pub fn pool_context(&self) -> &PoolContext
        ensures { result.now ≡ context_of self.now.policy }
    {
        self.policy.context()
    }

    /// What each connection is opened with. It fails only where memory runs out.
    pub fn connect_options(&self, alloc: Global) -> Result<ConnectOptions, NoMemory>
        ensures { IfOk result (λ connect. connect ≡ connect_of self.now.policy.resolver) }
    {
        connect_options(alloc, &self.policy.policy().resolver)
    }

    /// The moment that has come.
    pub fn reach(&mut self, now: u64)
        ensures moment { self.new.moment ≡ max self.old.moment now }
        ensures derived { (log : Log) → Derived self.old log → Derived self.new log }
        ensures same { (self.new.policy ≡ self.old.policy) × (self.new.greatest ≡ self.old.greatest) × (self.new.resolutions ≡ self.old.resolutions) × (self.new.cache ≡ self.old.cache) }
        ensures pools { self.new.pools ≡ self.old.pools }
    {
        self.moment = self.moment.max(now);
    }

    /// Leaves all questions, for a run of this patience.
    pub fn clear(&mut self, patience: u32)
        ensures derived { (log : Log) → self.old.greatest < log.next → CanWalk self.old.policy
            → TablesHold (seen_by self.old log) self.old.cache self.old.pools → Derived self.new log }
        ensures policy { self.new.policy ≡ with_patience (min self.old.policy.patience patience) self.old.policy }
        ensures same { (self.new.greatest ≡ self.old.greatest) × (self.new.moment ≡ self.old.moment) × (self.new.cache ≡ self.old.cache) }
        ensures cleared { self.new.resolutions.items ≡ [] }
    {
        self.resolutions.clear();
        self.pools.clear();
        self.policy.with_patience(patience);
    }

    /// Begins a question, and answers its place among the resolutions. One whose name is not fully
    /// qualified changes nothing.
    pub fn begin(
        &mut self,
        alloc: Global,
        question: Question,
        now: u64,
    ) -> Result<usize, RecursorError>
        ensures not_qualified { (result ≡ Err (RecursorError.Message MessageKind.NotQualified)) ↔ (question.query.name.fqdn ≡ false) }
        ensures only { IfErr result IsBeginError }
        ensures refused { question.query.name.fqdn ≡ false → self.new ≡ self.old }
        ensures derived { (log : Log) → self.old.moment ≤ now → Derived self.old log → Derived self.new log }
        ensures stays { (self.new.policy ≡ self.old.policy) × (self.old.moment ≤ now → (self.new.moment ≡ self.old.moment) ⊎ (self.new.moment ≡ now)) }
        ensures others { IsOneMore self.old self.new }
        ensures begun { IfOk result (λ r. (r ≡ length self.old.resolutions.items) × IsBegunAt self.new r question now) }
    {
        if !question.query.name.is_fqdn() {
            return Err(RecursorError::Message(MessageKind::NotQualified));
        }
        match self.begin_resolution(alloc, question, now) {
            Ok(place) => {
                self.moment = self.moment.max(now);
                Ok(place)
            }
            Err(_) => Err(RecursorError::NoMemory),
        }
    }

    fn begin_resolution(
        &mut self,
        alloc: Global,
        question: Question,
        now: u64,
    ) -> Result<usize, NoMemory>
        requires { question.query.name.fqdn ≡ true }
        ensures derived { (log : Log) → self.old.moment ≤ now → Derived self.old log
            → IfOk result (λ r. Derived (record self.new { moment = now }) log) }
        ensures same { (self.new.policy ≡ self.old.policy) × (self.new.moment ≡ self.old.moment) × (self.new.greatest ≡ self.old.greatest) × (self.new.cache ≡ self.old.cache) }
        ensures others { IsOneMore self.old self.new }
        ensures begun { IfOk result (λ r. (r ≡ length self.old.resolutions.items) × IsBegunAt self.new r question now) }
        ensures pools { self.new.pools ≡ self.old.pools }
        ensures err { IfErr result (λ e. self.new.resolutions.items ≡ self.old.resolutions.items) }
    {
        let place = self.resolutions.len();
        let resolution = in_box(alloc, Resolution::begin(question, now))?;
        self.resolutions.push(Some(resolution))?;
        Ok(place)
    }

    /// The resolution at a place, which has not ended.
    fn resolution(&self, r: usize) -> Option<&Resolution>
        ensures { option_copied result ≡ resolution_at self.now r }
    {
        match self.resolutions.get(r) {
            Some(Some(resolution)) => Some(resolution),
            _ => None,
        }
    }

    fn need(&self, r: usize) -> NextStep
        ensures { result ≡ need_at self.now r }
    {
        match self.resolution(r) {
            Some(resolution) => resolution.need(),
            None => NextStep::Nothing,
        }
    }

    /// Whether nothing is needed at a place.
    fn has_ended(&self, r: usize) -> bool
        ensures { IsTrue result ↔ (need_at self.now r ≡ NextStep.Nothing) }
    {
        match self.need(r) {
            NextStep::Nothing => true,
            NextStep::SetOut => false,
            NextStep::Send(_) => false,
            NextStep::Reply => false,
        }
    }

    /// The present moment; a step that puts nothing reads no patience.
    fn tick(&self) -> Tick
        ensures { result.now ≡ self.now.moment }
    {
        Tick {
            now: self.moment,
            patience: 1,
        }
    }

    /// What the resolution that is kept at a place has next.
    fn step(&mut self, alloc: Global, r: usize) -> Result<Step, NoMemory>
        requires { IsSome (resolution_at self.old r) }
        ensures steps { Steps self.old self.new r result }
        ensures gives { (log : Log) → Derived self.old log → Derived self.new log × IfOk result (StepGives self.old log r) }
        ensures same { SameCore r self.old self.new }
    {
        let since = self.greatest;
        let tick = self.tick();
        match &mut self.resolutions[r] {
            Some(resolution) => resolution.next(
                alloc,
                self.policy.policy(),
                &self.cache,
                &mut self.pools,
                since,
                tick,
            ),
            None => unreachable!(),
        }
    }

    /// Keeps nothing of a resolution that has ended.
    fn forget(&mut self, r: usize)
        ensures ended { need_at self.new r ≡ NextStep.Nothing → resolution_at self.new r ≡ None }
        ensures need { need_at self.new r ≡ need_at self.old r }
        ensures waits { open_at self.new r ≡ open_at self.old r }
        ensures given { given_by self.new ≡ given_by self.old }
        ensures derived { (log : Log) → Derived self.old log → Derived self.new log }
        ensures same { SameCore r self.old self.new }
    {
        if r < self.resolutions.len() && self.has_ended(r) {
            self.resolutions[r] = None;
        }
    }

    /// What a resolution has next: an order, one that it waits for, its reply once, or nothing more. Of one
    /// that has ended nothing is kept.
    pub fn next(&mut self, alloc: Global, r: usize) -> Result<Step, NoMemory>
        ensures steps { Steps self.old self.new r result }
        ensures ended { OnOk result (need_at self.new r ≡ NextStep.Nothing → resolution_at self.new r ≡ None) }
        ensures gives { (log : Log) → Derived self.old log → Derived self.new log × IfOk result (StepGives self.old log r) }
        ensures same { SameCore r self.old self.new }
    {
        if self.resolution(r).is_none() {
            return Ok(Step::Ended);
        }
        let step = self.step(alloc, r)?;
        self.forget(r);
        Ok(step)
    }

    /// Whether an entry is later than all that were put before, or there is none.
    fn is_next(&self, entry: u64) -> bool
        ensures { IsTrue result ↔ IsNext self.now.greatest entry }
    {
        entry == 0 || self.greatest < entry
    }

    /// Takes the outcome of an order, for the lookup at which it is open, whoever waits for that. It is late,
    /// and changes nothing, exactly where it is none of an order that is open, or its number is not greater
    /// than all before; that of a sleep is 0. With a poll that found nothing is handed in what
    /// it waits for. The last such poll that patience allows has ended the order, which is to be given up
    /// by whoever carries it; so is one that still is under way where memory runs out. What counts of a
    /// response that a lookup came to is written into the cache; where memory runs out for this the outcome is
    /// taken all the same.
    pub fn put(
        &mut self,
        alloc: Global,
        number: u64,
        outcome: Outcome,
        waits: Option<&SentBy>,
        tick: Tick,
    ) -> Result<After, NoMemory>
        ensures given { given_by self.new ≡ given_by self.old }
        ensures late { (result ≡ Ok After.Late) ↔ (IsNext self.old.greatest (entry_of outcome) → IsOutcomeOf self.old.pools number (option_copied waits.entry) outcome → ⊥) }
        ensures derived { (log longer : Log) → Derived self.old log → TellsTo self.old log tick (option_copied waits.entry) outcome result longer → Derived self.new longer }
        ensures takes { IfOk result (Takes self.old.cache self.new.cache self.old.pools self.new.pools number outcome tick) }
        ensures policy { self.new.policy ≡ self.old.policy }
        ensures moment { self.old.moment ≡ tick.now → self.new.moment ≡ tick.now }
        ensures begun { self.new.resolutions ≡ self.old.resolutions }
    {
        let entry = outcome.entry();
        if !self.is_next(entry) {
            drop(outcome);
            return Ok(After::Late);
        }
        let closing = closing_of(&outcome, waits);
        let after = self
            .pools
            .put(alloc, &mut self.cache, number, outcome, waits, tick);
        let last = last_entry(&after, entry, closing);
        self.greatest = self.greatest.max(last);
        self.moment = self.moment.max(tick.now);
        after
    }

    /// The order that a resolution waits for, but for these.
    pub fn next_open(&self, r: usize, but: &BTreeSet<u64>) -> Option<u64>
        ensures some { IfSome result (λ number. (open_at self.now r ≡ Some number) × (contains nat_cmp but.now number ≡ false)) }
        ensures none { IfNone result ((number : ℕ) → open_at self.now r ≡ Some number → contains nat_cmp but.now number ≡ true) }
    {
        let number = self.open_order(r)?;
        if but.contains(&number) {
            None
        } else {
            Some(number)
        }
    }

    /// The order that a resolution waits for.
    fn open_order(&self, r: usize) -> Option<u64>
        ensures { result ≡ open_at self.now r }
    {
        match self.resolution(r) {
            Some(resolution) => resolution.open_order(&self.pools),
            None => None,
        }
    }

    /// Ends a resolution without a reply, and answers the order that it waited for.
    pub fn cancel(&mut self, r: usize) -> Option<u64>
        ensures awaited { result ≡ open_at self.old r }
        ensures ended { resolution_at self.new r ≡ None }
        ensures given { given_by self.new ≡ given_by self.old }
        ensures derived { (log : Log) → Derived self.old log → Derived self.new log }
        ensures same { SameCore r self.old self.new }
    {
        let order = self.open_order(r);
        if r < self.resolutions.len() {
            match mem::replace(&mut self.resolutions[r], None) {
                Some(resolution) => Box::into_inner(resolution).leave(&mut self.pools),
                None => {}
            }
        }
        order
    }
}
