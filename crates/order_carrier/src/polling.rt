//! Polls an order that is under way.
ghost use Rattle.std.specs.Prelude.{◌≡◌, List, Option, Some, None};
ghost use Rattle.dns_core.specs.declared.log.LogEntry.{LogEntry};
ghost use Rattle.order_carrier.specs.Awaited.{sent_of, GoesFor, IsNamed};
ghost use Rattle.order_carrier.specs.Stand.{IsPolled};

use crate::awaited::Awaited;
use crate::order_state::OrderState;
use crate::under_way::{Connection, UnderWay};
use dns_core::{ConnectionProvider, Message, NetError, Poll};
use server_core::{Order, SentBy};

/// What a poll came to: of what an entry sent nothing yet, no memory, a connection, an answer or an
/// error; a sleep rests, or has ended.
#[derive(Drop)]
pub enum Heard {
    Waiting(u64),
    OutOfMemory,
    Connected(SentBy),
    Answered(SentBy, Message),
    Failed(SentBy, NetError),
    Resting,
    Slept,
}

/// What a poll leaves in the place of the order, and what was heard.
#[derive(Drop)]
pub struct Polled<P: ConnectionProvider> {
    pub slot: OrderState<P>,
    pub heard: Heard,
}

fn poll_connection<P: ConnectionProvider>(
    provider: &mut P,
    order: Box<Order>,
    future: P::FutureConn,
    sent: SentBy,
    now: u64,
) -> Polled<P>
    requires goes { GoesFor P.ConnectionProvider order.value (Awaited.Connection future sent) }
    requires named { IsNamed P.ConnectionProvider (P.log provider.old) (Awaited.Connection future sent) }
    ensures vouches { (es : List LogEntry) → P.vouches provider.new es → P.vouches provider.old es }
    ensures polled { IsPolled now order.value (Some sent) (P.log provider.old) (P.log provider.new) result }
{
    let mut future = future;
    match provider.poll_connection(&mut future, now) {
        Poll::Pending => {
            let heard = Heard::Waiting(sent.of);
            let awaited = Awaited::Connection { future, sent };
            let slot = OrderState::InFlight(UnderWay { order, awaited });
            Polled { slot, heard }
        }
        Poll::Ready(Ok(conn)) => {
            let slot = OrderState::Connected(Connection { conn, order });
            let heard = Heard::Connected(sent);
            Polled { slot, heard }
        }
        Poll::Ready(Err(error)) => {
            if error.is_memory() {
                drop(error);
                let awaited = Awaited::Connection { future, sent };
                let slot = OrderState::InFlight(UnderWay { order, awaited });
                let heard = Heard::OutOfMemory;
                return Polled { slot, heard };
            }
            let slot = OrderState::Done;
            let heard = Heard::Failed(sent, error);
            Polled { slot, heard }
        }
    }
}

fn poll_answer<P: ConnectionProvider>(
    provider: &mut P,
    order: Box<Order>,
    exchange: P::Exchange,
    sent: SentBy,
    now: u64,
) -> Polled<P>
    requires goes { GoesFor P.ConnectionProvider order.value (Awaited.Answer exchange sent) }
    requires named { IsNamed P.ConnectionProvider (P.log provider.old) (Awaited.Answer exchange sent) }
    ensures vouches { (es : List LogEntry) → P.vouches provider.new es → P.vouches provider.old es }
    ensures polled { IsPolled now order.value (Some sent) (P.log provider.old) (P.log provider.new) result }
{
    let mut exchange = exchange;
    match provider.poll_exchange(&mut exchange, now) {
        Poll::Pending => {
            let heard = Heard::Waiting(sent.of);
            let awaited = Awaited::Answer { exchange, sent };
            let slot = OrderState::InFlight(UnderWay { order, awaited });
            Polled { slot, heard }
        }
        Poll::Ready(Ok(message)) => {
            let (slot, heard) = (OrderState::Done, Heard::Answered(sent, message));
            Polled { slot, heard }
        }
        Poll::Ready(Err(error)) => {
            if error.is_memory() {
                drop(error);
                let awaited = Awaited::Answer { exchange, sent };
                let slot = OrderState::InFlight(UnderWay { order, awaited });
                let heard = Heard::OutOfMemory;
                return Polled { slot, heard };
            }
            let slot = OrderState::Done;
            let heard = Heard::Failed(sent, error);
            Polled { slot, heard }
        }
    }
}

/// A sleep rests before its moment.
fn poll_moment<P: ConnectionProvider>(order: Box<Order>, until: u64, now: u64) -> Polled<P>
    requires { order.value ≡ Order.Sleep until }
    ensures { (log : Option (List LogEntry)) → IsPolled now order.value None log log result }
{
    if now < until {
        let awaited = Awaited::Moment { until };
        let slot = OrderState::InFlight(UnderWay { order, awaited });
        let heard = Heard::Resting;
        return Polled { slot, heard };
    }
    let slot = OrderState::Done;
    let heard = Heard::Slept;
    Polled { slot, heard }
}

/// Polls what an order waits for.
pub fn poll_awaited<P: ConnectionProvider>(
    provider: &mut P,
    under_way: UnderWay<P>,
    now: u64,
) -> Polled<P>
    requires { IsNamed P.ConnectionProvider (P.log provider.old) under_way.awaited }
    ensures vouches { (es : List LogEntry) → P.vouches provider.new es → P.vouches provider.old es }
    ensures polled { IsPolled now under_way.order.value (sent_of under_way.awaited) (P.log provider.old) (P.log provider.new) result }
    ensures quiet { sent_of under_way.awaited ≡ None → provider.new ≡ provider.old }
{
    let UnderWay { order, awaited } = under_way;
    match awaited {
        Awaited::Connection { future, sent } => {
            poll_connection(provider, order, future, sent, now)
        }
        Awaited::Answer { exchange, sent } => poll_answer(provider, order, exchange, sent, now),
        Awaited::Moment { until } => poll_moment(order, until, now),
    }
}
