//! Gives up what a carrier has under way.
ghost use Rattle.std.specs.Prelude.{◌≡◌, IsSome, List, Some, None, is_some};
ghost use Rattle.dns_core.specs.declared.log.LogEntry.{LogEntry};
ghost use Rattle.order_carrier.specs.Did.{order_in};
ghost use Rattle.order_carrier.specs.Awaited.{sent_of, IsNamed};
ghost use Rattle.order_carrier.specs.GivingUp.{open_key, give_up_entry, GivesUp};
ghost use Rattle.order_carrier.specs.Growing.{with_entries};
ghost use Rattle.order_carrier.specs.Stand.{slot_at, stand_at, IsSlotNamed};
ghost use Rattle.order_carrier.specs.Carrying.{CarrierHolds};
ghost use Rattle.order_carrier.specs.declared.key.OrderKey.{OrderKey as Key};

use crate::awaited::Awaited;
use crate::carrier::Carrier;
use crate::key::{Form, OrderKey};
use crate::order_state::OrderState;
use crate::under_way::UnderWay;
use dns_core::ConnectionProvider;

/// Gives up what is waited for: an entry says so, where one sent it.
fn give_up_awaited<P: ConnectionProvider>(
    provider: &mut P,
    awaited: Awaited<P::FutureConn, P::Exchange>,
    now: u64,
)
    requires { IsNamed P.ConnectionProvider (P.log provider.old) awaited }
    ensures vouches { (es : List LogEntry) → P.vouches provider.new es → P.vouches provider.old es }
    ensures log { P.log provider.new ≡ with_entries (give_up_entry now (sent_of awaited)) (P.log provider.old) }
    ensures quiet { sent_of awaited ≡ None → provider.new ≡ provider.old }
{
    match awaited {
        Awaited::Connection { future, sent: _ } => provider.give_up_connection(future, now),
        Awaited::Answer { exchange, sent: _ } => provider.give_up(exchange, now),
        Awaited::Moment { until: _ } => {}
    }
}

impl<P: ConnectionProvider> Carrier<P> {
    fn is_open(&self, key: OrderKey) -> bool
        ensures { result ≡ is_some (order_in (stand_at self.now.slots key)) }
    {
        match self.slots.get(&key) {
            Some(OrderState::InFlight(_)) => true,
            None | Some(OrderState::Reserved | OrderState::Connected(_) | OrderState::Done) =>
                false,
        }
    }

    /// Under which form an order of a number is under way.
    fn open_key(&self, number: u64) -> Option<OrderKey>
        ensures { result ≡ open_key (stand_at self.now.slots) number }
    {
        let opening = OrderKey {
            number,
            form: Form::Open,
        };
        let ask = OrderKey {
            number,
            form: Form::Ask,
        };
        let sleep = OrderKey {
            number,
            form: Form::Sleep,
        };
        if self.is_open(opening) {
            Some(opening)
        } else if self.is_open(ask) {
            Some(ask)
        } else if self.is_open(sleep) {
            Some(sleep)
        } else {
            None
        }
    }

    /// Gives up what is under way under a key.
    fn give_up_at(&mut self, key: OrderKey, now: u64)
        requires open { IsSome (order_in (stand_at self.old.slots key)) }
        requires named { IsSlotNamed P.ConnectionProvider (P.log self.old.provider) (slot_at self.old.slots key) }
        ensures vouches { (es : List LogEntry) → P.vouches self.new.provider es → P.vouches self.old.provider es }
        ensures gives_up { GivesUp key now self.old self.new }
    {
        let OrderState::InFlight(under_way) = self.take(key) else {
            unreachable!()
        };
        let UnderWay { order: _, awaited } = under_way;
        self.count_sent(&awaited);
        give_up_awaited(&mut self.provider, awaited, now);
    }

    /// Gives up the order of a number that is under way: an opening before an ask, and that before a
    /// sleep. By what was sent an entry says so; a sleep is over without one. Where none is under way
    /// nothing changes.
    pub fn give_up(&mut self, number: u64, now: u64)
        requires { CarrierHolds P.ConnectionProvider self.old }
        ensures vouches { (es : List LogEntry) → P.vouches self.new.provider es → P.vouches self.old.provider es }

        // The order that is under way is over, and every other one stands as before.
        ensures gives_up { (key : Key) → open_key (stand_at self.old.slots) number ≡ Some key → GivesUp key now self.old self.new }
        ensures none { open_key (stand_at self.old.slots) number ≡ None → self.new ≡ self.old }
        ensures holds { CarrierHolds P.ConnectionProvider self.new }
    {
        if let Some(key) = self.open_key(number) {
            self.give_up_at(key, now);
        }
    }
}
