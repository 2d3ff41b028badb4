//! What a lookup has still to ask: which servers, in which order, and what it answers where none of
//! them decides it.
ghost use Rattle.std.specs.Prelude.{◌≡◌, ◌≤◌, ◌<◌, ◌+◌, ℕ, [], ◌∷◌, ◌++◌, List, length, true, false, not, if◌then◌else◌, Ok, Err, find, IfOk, IfSome, IfNone, IsTrue, ◌↔◌};
ghost use Rattle.std.specs.List.{after_first, list_any};
ghost use Rattle.std.specs.VecDeque.{deque_capacity};
ghost use Rattle.dns_core.specs.declared.message.Query.{Query};
ghost use Rattle.resolution.specs.Class.{class_of_error};
ghost use Rattle.resolution.specs.KeptError.{most_specific};
ghost use Rattle.resolution.specs.Lookups.{Answered, End, PoolRun, answer_of, is_tcp_fallback, is_busy, is_retryable};
ghost use Rattle.pool_rules.specs.declared.pool_server.PoolServer.{PoolServer};
ghost use Rattle.pool_rules.specs.RetryQueue.{HasRoom, may_ask, class_of_sent, ending_of, hearing_of, after_end, StandsAfter, sleep_time, may_sleep, rules_of, end_at, QueueStands};

use crate::answer_filter::{foreign_class, of_one_class};
use crate::kept_error::most_specific;
use crate::pool_server::{Heard, OnError, PoolServer};
use dns_core::{Message, NetError, NoMemory, Query, TryClone};
use server_core::ConnectionPolicy;
use std::alloc::Global;
use std::collections::VecDeque;
use std::marker::Model;
use std::mem;

/// How often a lookup sleeps at most.
const MOST_SLEEPS: u8 = 4;

/// The servers that are to be asked, in their order, those that were busy, over which protocols they
/// are asked, the error that is kept, and how often the lookup slept. Both queues have room for all
/// places of the pool from the start, so that no later step wants memory.
#[derive(Drop)]
pub struct RetryQueue {
    waiting: VecDeque<PoolServer>,
    busy: VecDeque<PoolServer>,
    policy: ConnectionPolicy,
    kept: NetError,
    sleeps: u8,
    most: usize,
}

impl Model for RetryQueue {
    ghost use Rattle.std.specs.Prelude.{◌≤◌};
    ghost use Rattle.std.specs.VecDeque.{deque_capacity};
    ghost use Rattle.pool_rules.specs.RetryQueue.{QueueState};

    ghost Value = { QueueState };

    ghost view = { λ a. record { waiting = a.waiting.items; busy = a.busy.items; udp_off = a.policy.disable_udp; kept = a.kept; sleeps = a.sleeps; most = a.most } };

    ghost invariant = { λ a. (a.most ≤ deque_capacity a.waiting) × (a.most ≤ deque_capacity a.busy) };
}

/// Whether an error passes the question on to another server.
fn is_passing(error: &NetError, trusted: bool) -> bool
    ensures { result ≡ is_retryable trusted (class_of_error error.now) }
{
    match error {
        NetError::Busy | NetError::Io(_) | NetError::NoConnections | NetError::Timeout => true,
        _ => !trusted && error.is_nx_domain(),
    }
}

fn is_mismatch(error: &NetError) -> bool
    ensures { result ≡ is_tcp_fallback (class_of_error error.now) }
{
    matches!(error, NetError::QueryCaseMismatch)
}

fn is_busy(error: &NetError) -> bool
    ensures { result ≡ is_busy (class_of_error error.now) }
{
    matches!(error, NetError::Busy)
}

/// What a send to a server does that ended with an error.
fn ending_of(udp_off: bool, trusted: bool, error: &NetError) -> OnError
    ensures { result ≡ ending_of udp_off trusted (class_of_error error.now) }
{
    if is_mismatch(error) && !udp_off {
        OnError::FallBackToTcp
    } else if is_passing(error, trusted) {
        OnError::NextServer
    } else {
        OnError::Final
    }
}

/// What an answer that is not cut comes to: a record of another class refuses it.
fn whole_answer(query: &Query, message: Message) -> Result<Message, NetError>
    requires { message.truncation ≡ false }
    ensures { result ≡ answer_of (class_of_sent query.now (Ok message)) }
{
    match of_one_class(query, message) {
        Ok(message) => Ok(message),
        Err(r) => Err(foreign_class(r)),
    }
}

/// A copy of a queue, with room for so many servers.
fn queue_copy(
    alloc: Global,
    queue: &VecDeque<PoolServer>,
    most: usize,
) -> Result<VecDeque<PoolServer>, NoMemory>
    ensures items { IfOk result (λ copy. copy.items ≡ queue.now.items) }
    ensures room { IfOk result (λ copy. most ≤ deque_capacity copy) }
{
    let (front, back) = queue.as_slices();
    let mut copy = Vec::with_capacity(alloc, most)?;
    copy.extend_from_slice(front)?;
    copy.extend_from_slice(back)?;
    Ok(VecDeque::from_vec(copy))
}

impl RetryQueue {
    /// All servers of the pool are to be asked, in their order.
    pub fn new(alloc: Global, pool: &[PoolServer]) -> Result<Self, NoMemory>
        ensures plan { IfOk result (λ a. a ≡ record { waiting = pool.now; busy = []; udp_off = false; kept = NetError.NoConnections; sleeps = 0; most = length pool.now }) }
        ensures stands { (q : Query) (timeout : ℕ) → IfOk result (λ a. QueueStands q timeout pool.now [] [] a) }
    {
        let most = pool.len();
        let waiting = VecDeque::from_vec(Vec::from_slice(alloc, pool)?);
        let busy = VecDeque::with_capacity(alloc, most)?;
        Ok(RetryQueue {
            waiting,
            busy,
            policy: ConnectionPolicy { disable_udp: false },
            kept: NetError::NoConnections,
            sleeps: 0,
            most,
        })
    }

    /// With what a server is asked that is taken now.
    pub fn policy(&self) -> ConnectionPolicy
        ensures { result ≡ record { disable_udp = self.now.udp_off } }
    {
        self.policy
    }

    fn may_ask(&self, candidate: PoolServer) -> bool
        ensures { result ≡ may_ask self.now.udp_off candidate }
    {
        !self.policy.disable_udp || candidate.beyond_udp
    }

    /// Takes the first server that may be asked, and those before it.
    fn pop_allowed(&mut self) -> Option<PoolServer>
        ensures taken { result ≡ find (may_ask self.old.udp_off) self.old.waiting }
        ensures plan { self.new ≡ record self.old { waiting = after_first (may_ask self.old.udp_off) self.old.waiting } }
    {
        'refused: while let Some(candidate) = self.waiting.pop_front() {
            if self.may_ask(candidate) {
                return Some(candidate);
            }
        }
        None
    }

    /// Takes the first server that may be asked. Those before it are not asked any more.
    pub fn take(&mut self) -> Option<PoolServer>
        ensures taken { result ≡ find (may_ask self.old.udp_off) self.old.waiting }
        ensures plan { self.new ≡ record self.old { waiting = after_first (may_ask self.old.udp_off) self.old.waiting } }
        ensures some { (q : Query) (timeout : ℕ) (pool : List PoolServer) (ends : List (End PoolServer)) (under : List PoolServer) →
            QueueStands q timeout pool ends under self.old → IfSome result (λ c. QueueStands q timeout pool ends (c ∷ under) self.new) }
        ensures none { (q : Query) (timeout : ℕ) (pool : List PoolServer) (ends : List (End PoolServer)) (under : List PoolServer) →
            QueueStands q timeout pool ends under self.old → IfNone result (QueueStands q timeout pool ends under self.new) }
        ensures empty { IfNone result (self.new.waiting ≡ []) }
    {
        self.pop_allowed()
    }

    /// Takes a message that a server told. A cut one turns UDP off the first time, and the server is
    /// asked again first; another one ends the lookup.
    fn hear_message(&mut self, candidate: PoolServer, message: Message, query: &Query) -> Heard
        requires { HasRoom self.old }
        ensures hearing { result ≡ hearing_of candidate (class_of_sent query.now (Ok message)) self.old }
        ensures plan { self.new ≡ after_end candidate (class_of_sent query.now (Ok message)) self.old }
    {
        if !message.truncation {
            return Heard::Concluded(whole_answer(query, message));
        }
        if self.policy.disable_udp {
            return Heard::Concluded(Err(NetError::Truncated));
        }
        self.turn(candidate);
        self.kept = NetError::Truncated;
        Heard::Continue
    }

    /// Keeps an error, where it is the most specific.
    fn keep(&mut self, error: NetError)
        ensures { self.new ≡ record self.old { kept = most_specific self.old.kept error } }
    {
        let kept = mem::replace(&mut self.kept, NetError::NoConnections);
        self.kept = most_specific(kept, error);
    }

    /// Turns UDP off: the server is asked again first.
    fn turn(&mut self, candidate: PoolServer)
        requires { length self.old.waiting < self.old.most }
        ensures { self.new ≡ record self.old { waiting = candidate ∷ self.old.waiting; udp_off = true } }
    {
        self.waiting.push_front_reserved(candidate);
        self.policy.disable_udp = true;
    }

    /// Keeps a server that is busy for later.
    fn delay(&mut self, candidate: PoolServer, error: &NetError)
        requires { length self.old.busy < self.old.most }
        ensures { self.new ≡ record self.old { busy = if is_busy (class_of_error error.now) then self.old.busy ++ candidate ∷ [] else self.old.busy } }
    {
        if is_busy(error) {
            self.busy.push_back_reserved(candidate);
        }
    }

    /// Passes the question on to another server.
    fn pass(&mut self, candidate: PoolServer, error: NetError) -> Heard
        requires passes { OnError.NextServer ≡ ending_of self.old.udp_off candidate.trusted (class_of_error error) }
        requires room { length self.old.busy < self.old.most }
        ensures hearing { result ≡ hearing_of candidate (class_of_error error) self.old }
        ensures plan { self.new ≡ after_end candidate (class_of_error error) self.old }
    {
        self.delay(candidate, &error);
        self.keep(error);
        Heard::Continue
    }

    /// Takes an error with which a send to a server ended. A mismatch leaves the error that is kept.
    fn hear_error(&mut self, candidate: PoolServer, error: NetError) -> Heard
        requires { HasRoom self.old }
        ensures hearing { result ≡ hearing_of candidate (class_of_error error) self.old }
        ensures plan { self.new ≡ after_end candidate (class_of_error error) self.old }
    {
        match ending_of(self.policy.disable_udp, candidate.trusted, &error) {
            OnError::FallBackToTcp => {
                self.turn(candidate);
                Heard::Continue
            }
            OnError::NextServer => self.pass(candidate, error),
            OnError::Final => Heard::Concluded(Err(error)),
        }
    }

    /// Takes what a send to a server ended with.
    fn hear_end(
        &mut self,
        candidate: PoolServer,
        outcome: Result<Message, NetError>,
        query: &Query,
    ) -> Heard
        requires { HasRoom self.old }
        ensures hearing { result ≡ hearing_of candidate (class_of_sent query.now outcome) self.old }
        ensures plan { self.new ≡ after_end candidate (class_of_sent query.now outcome) self.old }
    {
        match outcome {
            Ok(message) => self.hear_message(candidate, message, query),
            Err(error) => self.hear_error(candidate, error),
        }
    }

    /// Takes what the send to a server ended with that `take` gave.
    pub fn hear(
        &mut self,
        candidate: PoolServer,
        outcome: Result<Message, NetError>,
        query: &Query,
    ) -> Heard
        requires { HasRoom self.old }
        ensures hearing { result ≡ hearing_of candidate (class_of_sent query.now outcome) self.old }
        ensures plan { self.new ≡ after_end candidate (class_of_sent query.now outcome) self.old }
        ensures stands { (timeout start now : ℕ) (pool : List PoolServer) (ends : List (End PoolServer)) (under : List PoolServer) →
            QueueStands query.now timeout pool ends (candidate ∷ under) self.old → StandsAfter query.now timeout start now pool ends under candidate outcome self.new result }
    {
        self.hear_end(candidate, outcome, query)
    }

    /// Whether servers were busy, and the lookup may sleep before it asks them again.
    pub fn may_sleep(&self) -> bool
        ensures { result ≡ may_sleep self.now }
    {
        !self.busy.is_empty() && self.sleeps < MOST_SLEEPS
    }

    pub fn has_none_waiting(&self) -> bool
        ensures { IsTrue result ↔ (self.now.waiting ≡ []) }
    {
        self.waiting.is_empty()
    }

    /// Whether no server that waits may be asked.
    pub fn has_none_allowed(&self) -> bool
        ensures { result ≡ not (list_any (may_ask self.now.udp_off) self.now.waiting) }
    {
        !self.waiting.iter().any(|c| self.may_ask(*c))
    }

    /// How long the next sleep is, in microseconds.
    pub fn sleep_time(&self) -> u64
        requires { self.now.sleeps ≤ 4 }
        ensures { result ≡ sleep_time self.now.sleeps }
    {
        20_000 << self.sleeps
    }

    fn ask_again(&mut self)
        requires few { self.old.sleeps < 4 }
        requires empty { self.old.waiting ≡ [] }
        ensures { self.new ≡ record self.old { waiting = self.old.busy; busy = []; sleeps = self.old.sleeps + 1 } }
    {
        mem::swap(&mut self.waiting, &mut self.busy);
        self.sleeps += 1;
    }

    /// After a sleep, the servers that were busy are to be asked again.
    pub fn wake(&mut self)
        requires few { self.old.sleeps < 4 }
        requires empty { self.old.waiting ≡ [] }
        ensures plan { self.new ≡ record self.old { waiting = self.old.busy; busy = []; sleeps = self.old.sleeps + 1 } }
        ensures stands { (q : Query) (timeout : ℕ) (pool : List PoolServer) (ends : List (End PoolServer)) →
            QueueStands q timeout pool ends [] self.old → QueueStands q timeout pool ends [] self.new }
    {
        self.ask_again();
    }

    /// Hands out the error that is kept.
    fn take_kept(&mut self) -> NetError
        ensures kept { result ≡ self.old.kept }
        ensures plan { self.new ≡ record self.old { kept = NetError.NoConnections } }
    {
        mem::replace(&mut self.kept, NetError::NoConnections)
    }

    /// What the lookup answers where no server may be asked any more.
    pub fn give_up(&mut self) -> NetError
        requires waiting { self.old.waiting ≡ [] }
        requires awake { may_sleep self.old ≡ false }
        ensures kept { result ≡ self.old.kept }
        ensures plan { self.new ≡ record self.old { kept = NetError.NoConnections } }
        ensures spent { (q : Query) (timeout start now : ℕ) (pool : List PoolServer) (ends : List (End PoolServer)) →
            QueueStands q timeout pool ends [] self.old → PoolRun (rules_of timeout) (class_of_sent q) pool ends (Err result) start now }
    {
        self.take_kept()
    }
}

impl TryClone for RetryQueue {
    fn try_clone(&self, alloc: Global) -> Result<Self, NoMemory> {
        let waiting = queue_copy(alloc, &self.waiting, self.most)?;
        let busy = queue_copy(alloc, &self.busy, self.most)?;
        let kept = self.kept.try_clone(alloc)?;
        Ok(RetryQueue {
            waiting,
            busy,
            policy: self.policy,
            kept,
            sleeps: self.sleeps,
            most: self.most,
        })
    }
}
