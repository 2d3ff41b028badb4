//! How the outcomes of orders, and the ends of attempts, are heard.
ghost use Rattle.std.specs.Prelude.{◌≡◌, ◌<◌, ◌+◌, ◌*◌, length, slice_get, Some, MatchResult};
ghost use Rattle.server_core.specs.Servers.{place_of};
ghost use Rattle.pool_rules.specs.RetryQueue.{HasRoom};
ghost use Rattle.pool_rules.specs.AnswerFilter.{denied_by};
ghost use Rattle.pool_lookup.specs.declared.attempt.Attempt.{Attempt as InFlight};
ghost use Rattle.pool_lookup.specs.Cancelling.{table_after, table_heard, ended_at, ended_table};
ghost use Rattle.pool_lookup.specs.Hearing.{CanEnd, left_of, closed, heard, closing_entry, run_out, after_close, after_end, after_attempt, after_outcome, done_by, run_out_at, after_out_of_memory, DoesTo, IsAfter, RunsOut};
ghost use Rattle.pool_lookup.specs.Holds.{IsSound, AreReached};
ghost use Rattle.pool_lookup.specs.Lookup.{question_of};

use crate::attempt::{Attempt, Put, put_at};
use crate::backoff::{after_backoff, is_order};
use crate::lookup::{Lookup, State};
use crate::losers::ends_by_message;
use dns_core::{Message, NetError, NoMemory, Query};
use pool_rules::{Heard, PoolServer, filtered};
use server_core::{After, Outcome, PoolContext, ServerTable, Tick};
use std::alloc::Global;

/// The log entry that closes an attempt by an outcome: where its last poll gives it up, that is the
/// give-up's, which is the next one.
fn closing_entry(outcome: &Outcome) -> u64
    ensures { result ≡ closing_entry outcome.now }
{
    match outcome {
        Outcome::Pending { entry, .. } => entry.saturating_add(1),
        Outcome::Connected { entry, .. } => *entry,
        Outcome::Told { entry, .. } => *entry,
        Outcome::Failed { entry, .. } => *entry,
        Outcome::Slept => 0,
    }
}

/// What is left of an answer.
fn left_of(
    alloc: Global,
    query: Query,
    cx: &PoolContext,
    answer: Result<Message, NetError>,
) -> Result<Message, NetError>
    ensures { result ≡ left_of query (denied_by cx.now.answer_address_filter) answer }
{
    match answer {
        Ok(message) => filtered(alloc, message, query, cx.answer_address_filter()),
        Err(error) => Err(error),
    }
}

impl Lookup {
    /// The attempt at a place is over, by a log entry.
    fn close(&mut self, place: usize, entry: u64) -> Attempt
        requires place { place < length self.old.attempts }
        requires round { length self.old.ended < length self.old.servers }
        requires sends { length self.old.closed_by < 5 * length self.old.servers + 1 }
        ensures attempt { slice_get self.old.attempts place ≡ Some result }
        ensures closed { self.new ≡ closed place result.candidate.server entry self.old }
    {
        let attempt = self.attempts.remove(place);
        self.ended.push_reserved(attempt.candidate.server);
        self.closed_by.push_reserved(entry);
        attempt
    }

    /// Hears with what an attempt at a server ended. The query is the lookup's.
    fn hear(
        &mut self,
        alloc: Global,
        cx: &PoolContext,
        candidate: PoolServer,
        end: Result<Message, NetError>,
        query: Query,
        now: u64,
    )
        requires room { HasRoom self.old.queue }
        requires asks { query ≡ question_of self.old }
        ensures { self.new ≡ heard (denied_by cx.now.answer_address_filter) candidate end now self.old }
    {
        match self.queue.hear(candidate, end, &self.request.query) {
            Heard::Continue => {}
            Heard::Concluded(answer) => {
                let left = left_of(alloc, query, cx, answer);
                self.decide(left, now);
            }
        }
    }

    /// The attempt at a place has ended so, by a log entry. A message that ends the lookup counts for the
    /// others of the round.
    fn end_attempt(
        &mut self,
        alloc: Global,
        table: &mut ServerTable,
        cx: &PoolContext,
        place: usize,
        entry: u64,
        end: Result<Message, NetError>,
        now: u64,
    )
        requires { CanEnd place self.old }
        ensures lookup { (a : InFlight) → slice_get self.old.attempts place ≡ Some a
            → self.new ≡ after_end (denied_by cx.now.answer_address_filter) place entry a end now self.old }
        ensures table { (a : InFlight) → slice_get self.old.attempts place ≡ Some a
            → table.new ≡ ended_table end now self.old.queue.udp_off (closed place a.candidate.server entry self.old) table.old }
    {
        let udp_off = self.queue.policy().disable_udp;
        let won = ends_by_message(udp_off, &end);
        let attempt = self.close(place, entry);
        self.record_losers(won, table, now);
        self.hear(
            alloc,
            cx,
            attempt.candidate,
            end,
            attempt.send.request.query,
            now,
        );
        self.settle(now);
    }

    /// The attempt at a place has ended so, by a log entry, if it has.
    fn hear_end(
        &mut self,
        alloc: Global,
        table: &mut ServerTable,
        cx: &PoolContext,
        place: usize,
        entry: u64,
        end: Option<Result<Message, NetError>>,
        now: u64,
    )
        requires { CanEnd place self.old }
        ensures lookup { (a : InFlight) → slice_get self.old.attempts place ≡ Some a
            → self.new ≡ after_close (denied_by cx.now.answer_address_filter) place entry a now self.old end }
        ensures table { (a : InFlight) → slice_get self.old.attempts place ≡ Some a → table.new ≡ ended_at place entry a now self.old end table.old }
    {
        match end {
            Some(end) => self.end_attempt(alloc, table, cx, place, entry, end, now),
            None => {}
        }
    }

    /// Out of memory the attempt at a place is over, and that is the answer.
    fn run_out(&mut self, place: usize, entry: u64, now: u64)
        requires { CanEnd place self.old }
        ensures { (a : InFlight) → slice_get self.old.attempts place ≡ Some a → self.new ≡ run_out place a.candidate.server entry now self.old }
    {
        drop(self.close(place, entry));
        self.decide(Err(NetError::NoMemory), now);
    }

    /// Takes the outcome of the open order of the attempt at a place.
    fn put_attempt(
        &mut self,
        alloc: Global,
        table: &mut ServerTable,
        cx: &mut PoolContext,
        place: usize,
        outcome: Outcome,
        tick: Tick,
    ) -> Result<After, NoMemory>
        requires can { CanEnd place self.old }
        requires there { (a : InFlight) → slice_get self.old.attempts place ≡ Some a → place_of a.send.server < length table.old }
        ensures after { (a : InFlight) → slice_get self.old.attempts place ≡ Some a
            → DoesTo tick.patience a.send.stage outcome result }
        ensures lookup { IsAfter result (after_attempt (denied_by cx.old.answer_address_filter) tick place outcome self.old) (run_out_at place tick.now outcome self.old) self.new }
        ensures table { IsAfter result (table_after tick place outcome self.old table.old) table.old table.new }
        ensures context { cx.new ≡ cx.old }
    {
        let entry = closing_entry(&outcome);
        match put_at(&mut self.attempts, alloc, table, cx, place, outcome, tick) {
            Ok(put) => {
                let Put { after, end } = put;
                self.hear_end(alloc, table, cx, place, entry, end, tick.now);
                Ok(after)
            }
            Err(NoMemory) => {
                self.run_out(place, entry, tick.now);
                Err(NoMemory)
            }
        }
    }

    /// Takes the outcome of the open order of a number, where that is one of an attempt.
    fn put_order(
        &mut self,
        alloc: Global,
        table: &mut ServerTable,
        cx: &mut PoolContext,
        number: u64,
        outcome: Outcome,
        tick: Tick,
    ) -> Result<After, NoMemory>
        requires asks { self.old.state ≡ State.Asking }
        requires holds { IsSound self.old }
        requires reached { AreReached table.old self.old }
        ensures after { MatchResult result (λ after. after ≡ done_by tick.patience number outcome self.old) (λ error. RunsOut number outcome self.old) }
        ensures lookup { IsAfter result (after_outcome (denied_by cx.old.answer_address_filter) tick number outcome self.old) (after_out_of_memory number tick.now outcome self.old) self.new }
        ensures table { IsAfter result (table_heard tick number outcome self.old table.old) table.old table.new }
        ensures context { cx.new ≡ cx.old }
    {
        match self.open_place(number) {
            Some(place) => self.put_attempt(alloc, table, cx, place, outcome, tick),
            None => {
                drop(outcome);
                Ok(After::Late)
            }
        }
    }

    /// Takes the outcome of an open order: of an attempt, or of the backoff. One whose order is not open
    /// is late and changes nothing. Out of memory for a message, which alone takes any, that is the answer of
    /// the lookup.
    pub fn put(
        &mut self,
        alloc: Global,
        table: &mut ServerTable,
        cx: &mut PoolContext,
        number: u64,
        outcome: Outcome,
        tick: Tick,
    ) -> Result<After, NoMemory>
        requires holds { IsSound self.old }
        requires reached { AreReached table.old self.old }
        ensures after { MatchResult result (λ after. after ≡ done_by tick.patience number outcome self.old) (λ error. RunsOut number outcome self.old) }
        ensures lookup { IsAfter result (after_outcome (denied_by cx.old.answer_address_filter) tick number outcome self.old) (after_out_of_memory number tick.now outcome self.old) self.new }
        ensures table { IsAfter result (table_heard tick number outcome self.old table.old) table.old table.new }
        ensures context { cx.new ≡ cx.old }
    {
        match self.state {
            State::Asking => self.put_order(alloc, table, cx, number, outcome, tick),
            State::BackingOff {
                until,
                order,
                polls,
            } => {
                if is_order(number, order) {
                    let after = after_backoff(tick.patience, polls, &outcome);
                    self.end_backoff(until, order, polls, &outcome, tick);
                    drop(outcome);
                    Ok(after)
                } else {
                    drop(outcome);
                    Ok(After::Late)
                }
            }
            State::Decided { .. } => {
                drop(outcome);
                Ok(After::Late)
            }
        }
    }
}
