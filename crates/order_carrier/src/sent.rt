//! What was sent for the orders that are under way.
ghost use Rattle.std.specs.Prelude.{◌≡◌, is_some, option_copied};
ghost use Rattle.order_carrier.specs.Awaited.{sent_of};
ghost use Rattle.order_carrier.specs.Did.{order_in, sent_in};
ghost use Rattle.order_carrier.specs.Key.{key_of};
ghost use Rattle.order_carrier.specs.Sent.{is_free};
ghost use Rattle.order_carrier.specs.Stand.{stand_at};

use crate::awaited::Awaited;
use crate::carrier::Carrier;
use crate::key::{Form, OrderKey};
use crate::order_state::OrderState;
use dns_core::ConnectionProvider;
use server_core::{Order, SentBy};

/// What was sent for what is waited for; nothing was for a moment.
fn sent_of<F, E>(awaited: &Awaited<F, E>) -> Option<&SentBy>
    ensures { option_copied result ≡ sent_of awaited.now }
{
    match awaited {
        Awaited::Connection { future: _, sent } => Some(sent),
        Awaited::Answer { exchange: _, sent } => Some(sent),
        Awaited::Moment { until: _ } => None,
    }
}

impl<P: ConnectionProvider> Carrier<P> {
    /// What was sent for an order that is under way under its number; nothing was for a sleep.
    pub fn sent(&self, number: u64, order: &Order) -> Option<&SentBy>
        ensures { option_copied result ≡ sent_in (stand_at self.now.slots (key_of number order.now)) }
    {
        match self.slots.get(&OrderKey::of(number, order)) {
            Some(OrderState::InFlight(under_way)) => sent_of(&under_way.awaited),
            None | Some(OrderState::Reserved | OrderState::Connected(_) | OrderState::Done) => None,
        }
    }

    /// Whether an order of a form is under way under a number.
    fn has(&self, number: u64, form: Form) -> bool
        ensures { result ≡ is_some (order_in (stand_at self.now.slots (record { number = number; form = form }))) }
    {
        match self.slots.get(&OrderKey { number, form }) {
            Some(OrderState::InFlight(_)) => true,
            None | Some(OrderState::Reserved | OrderState::Connected(_) | OrderState::Done) =>
                false,
        }
    }

    /// Whether nothing is under way under a number.
    pub fn is_free(&self, number: u64) -> bool
        ensures { result ≡ is_free (stand_at self.now.slots) number }
    {
        self.is_past(number)
            || !self.has(number, Form::Open)
                && !self.has(number, Form::Ask)
                && !self.has(number, Form::Sleep)
    }
}
