//! How the rounds of a lookup follow one another.
ghost use Rattle.std.specs.Prelude.{◌≡◌, ◌≤◌, true, [], length, nat_le};
ghost use Rattle.std.specs.VecDeque.{deque_capacity};
ghost use Rattle.pool_lookup.specs.Lookup.{deadline};
ghost use Rattle.pool_lookup.specs.Rounds.{CanBegin, dealt, without_dealt, with_round, backs_off_until, given_up, paused, dealt_out, round_begun, is_over, is_spent, started, settled};

use crate::lookup::{Lookup, State};
use dns_core::NetError;
use pool_rules::{PoolServer, RetryQueue};
use std::collections::VecDeque;

/// Deals the first servers that the policy allows to a round, which has room for them.
fn deal(queue: &mut RetryQueue, ready: &mut VecDeque<PoolServer>, most: usize)
    requires none { ready.old.items ≡ [] }
    requires room { length queue.old.waiting ≤ deque_capacity ready.old }
    ensures dealt { ready.new.items ≡ dealt most queue.old }
    ensures queue { queue.new ≡ without_dealt most queue.old }
    ensures capacity { deque_capacity ready.new ≡ deque_capacity ready.old }
{
    'dealing: for _ in 0..most {
        match queue.take() {
            Some(candidate) => ready.push_back_reserved(candidate),
            None => return,
        }
    }
}

impl Lookup {
    fn is_late(&self, now: u64) -> bool
        ensures { result ≡ nat_le (deadline self.now) now }
    {
        self.start <= now && self.timeout <= now - self.start
    }

    /// A round begins with as many servers as are asked side by side.
    fn deal_round(&mut self, now: u64)
        requires none { self.old.ready ≡ [] }
        requires room { length self.old.queue.waiting ≤ length self.old.servers }
        ensures { self.new ≡ with_round now self.old }
    {
        self.round_start = now;
        self.round_off = self.queue.policy().disable_udp;
        self.ended.clear();
        deal(&mut self.queue, &mut self.ready, self.concurrency);
    }

    /// When a backoff ends that begins at this moment.
    fn backs_off_until(&self, now: u64) -> u64
        requires { self.now.queue.sleeps ≤ 4 }
        ensures { result ≡ backs_off_until now self.now }
    {
        let deadline = self.start.saturating_add(self.timeout);
        deadline.min(now.saturating_add(self.queue.sleep_time()))
    }

    /// No server is left: it backs off before it asks the busy ones again, or the error that is kept is
    /// its answer.
    fn pause(&mut self, now: u64)
        requires few { self.old.queue.sleeps ≤ 4 }
        requires none { self.old.queue.waiting ≡ [] }
        ensures { self.new ≡ paused now self.old }
    {
        if self.queue.may_sleep() {
            let until = self.backs_off_until(now);
            self.enter(State::BackingOff {
                until,
                order: None,
                polls: 0,
            });
        } else {
            let error = self.queue.give_up();
            self.decide(Err(error), now);
        }
    }

    /// Where the round has no server, it is over at once.
    fn deal_out(&mut self, now: u64)
        requires few { self.old.queue.sleeps ≤ 4 }
        requires none { self.old.ready ≡ [] → self.old.queue.waiting ≡ [] }
        ensures { self.new ≡ dealt_out now self.old }
    {
        if self.ready.is_empty() {
            self.pause(now);
        }
    }

    /// The next round begins: it asks servers, backs off, or is the last. At the deadline it is a timeout.
    pub(crate) fn begin_round(&mut self, now: u64)
        requires can { CanBegin self.old }
        requires none { self.old.ready ≡ [] }
        ensures { self.new ≡ round_begun now self.old }
    {
        if self.is_late(now) {
            self.decide(Err(NetError::Timeout), now);
        } else {
            self.deal_round(now);
            self.deal_out(now);
        }
    }

    fn is_over(&self) -> bool
        ensures { result ≡ is_over self.now }
    {
        self.is_asking() && self.ready.is_empty() && self.attempts.is_empty()
    }

    fn is_spent(&self) -> bool
        ensures { result ≡ is_spent self.now }
    {
        self.is_over() && self.queue.has_none_allowed() && !self.queue.may_sleep()
    }

    /// The next round begins, if it is due.
    pub(crate) fn start(&mut self, now: u64)
        requires { is_over self.old ≡ true → CanBegin self.old }
        ensures { self.new ≡ started now self.old }
    {
        if self.is_over() {
            self.begin_round(now);
        }
    }

    /// A lookup that can do nothing more is decided at once.
    pub(crate) fn settle(&mut self, now: u64)
        requires { is_over self.old ≡ true → CanBegin self.old }
        ensures { self.new ≡ settled now self.old }
    {
        if self.is_spent() {
            self.begin_round(now);
        }
    }
}
