//! How a lookup backs off before it asks the servers again that were busy.
ghost use Rattle.std.specs.Prelude.{◌≡◌, ◌<◌, ◌+◌, ◌^◌, IsTrue};
ghost use Rattle.pool_lookup.specs.Backoff.{CanWake, is_order, goes_on, after_backoff, woken, after_sleep};

use crate::lookup::{Lookup, State};
use server_core::{After, Outcome, Tick};

pub(crate) fn is_order(number: u64, order: Option<u64>) -> bool
    ensures { result ≡ is_order number order }
{
    match order {
        Some(n) => n == number,
        None => false,
    }
}

/// Whether an outcome is a poll before the last one that patience allows, after so many.
fn goes_on(patience: u32, polls: u32, outcome: &Outcome) -> bool
    ensures same { result ≡ goes_on patience polls outcome.now }
    ensures fits { IsTrue result → polls + 1 < 2 ^ 32 }
{
    matches!(outcome, Outcome::Pending { .. }) && polls.saturating_add(1) < patience
}

/// What an outcome does to the order of a backoff, after so many polls of it.
pub(crate) fn after_backoff(patience: u32, polls: u32, outcome: &Outcome) -> After
    ensures { result ≡ after_backoff patience polls outcome.now }
{
    if goes_on(patience, polls, outcome) {
        After::Kept
    } else if matches!(outcome, Outcome::Pending { .. }) {
        After::GiveUp
    } else {
        After::Ended
    }
}

impl Lookup {
    /// After a backoff the servers that were busy are to be asked again.
    fn wake(&mut self, now: u64)
        requires { CanWake self.old }
        ensures { self.new ≡ woken now self.old }
    {
        self.queue.wake();
        self.enter(State::Asking);
        self.settle(now);
    }

    /// It backs off until a moment, under an order that was polled so often.
    fn back_off(&mut self, until: u64, order: Option<u64>, polls: u32)
        ensures { self.new ≡ record self.old { state = State.BackingOff until order polls } }
    {
        self.enter(State::BackingOff {
            until,
            order,
            polls,
        });
    }

    /// Takes the outcome of the order of its backoff.
    pub(crate) fn end_backoff(
        &mut self,
        until: u64,
        order: Option<u64>,
        polls: u32,
        outcome: &Outcome,
        tick: Tick,
    )
        requires { CanWake self.old }
        ensures { self.new ≡ after_sleep tick until order polls outcome.now self.old }
    {
        if goes_on(tick.patience, polls, outcome) {
            self.back_off(until, order, polls.saturating_add(1));
        } else {
            self.wake(tick.now);
        }
    }
}
