//! Calls the provider for an order that starts.
ghost use Rattle.std.specs.Prelude.{◌≡◌, List, Some, if◌then◌else◌};
ghost use Rattle.dns_core.specs.NetError.{is_memory};
ghost use Rattle.dns_core.specs.declared.log.LogEntry.{LogEntry};
ghost use Rattle.order_carrier.specs.Awaited.{query_of, sent_for};
ghost use Rattle.order_carrier.specs.Calling.{IsOver, AsksOver, IsCalled, IsQuiet};
ghost use Rattle.server_core.specs.declared.orders.order.Order.{Order as Ordered};

use crate::awaited::Awaited;
use dns_core::{ConnectOptions, ConnectionConfig, ConnectionProvider, DnsRequest, NetError, Query};
use server_core::{Order, SentBy};
use std::net::IpAddr;

/// What a call came to: no memory, a refusal of what was sent, or what is waited for.
#[derive(Drop)]
pub enum Called<F, E> {
    OutOfMemory,
    Refused(SentBy, NetError),
    Going(Awaited<F, E>),
}

/// What an error comes to: out of memory is no refusal.
fn refusal<F, E>(sent: SentBy, error: NetError) -> Called<F, E>
    ensures { result ≡ (if is_memory error then Called.OutOfMemory else Called.Refused sent error) }
{
    if error.is_memory() {
        Called::OutOfMemory
    } else {
        Called::Refused(sent, error)
    }
}

fn call_open<P: ConnectionProvider>(
    provider: &mut P,
    options: &ConnectOptions,
    ip: IpAddr,
    config: &ConnectionConfig,
    sent: SentBy,
    now: u64,
) -> Called<P::FutureConn, P::Exchange>
    requires { sent_for sent.of now (Order.Open ip config.now) ≡ Some sent }
    ensures vouches { (es : List LogEntry) → P.vouches provider.new es → P.vouches provider.old es }
    ensures called { IsCalled P.ConnectionProvider sent.of now (Order.Open ip config.now) (P.log provider.old) (P.log provider.new) result }
{
    match provider.new_connection(ip, config, options, now) {
        Ok(future) => Called::Going(Awaited::Connection { future, sent }),
        Err(error) => refusal(sent, error),
    }
}

fn call_ask<P: ConnectionProvider>(
    provider: &mut P,
    over: P::Conn,
    request: &DnsRequest,
    sent: SentBy,
    now: u64,
) -> Called<P::FutureConn, P::Exchange>
    requires { sent ≡ record { of = sent.of; ip = (P.peer over).ip; moment = now; query = Some request.now.query } }
    ensures vouches { (es : List LogEntry) → P.vouches provider.new es → P.vouches provider.old es }
    ensures called { (order : Ordered) → AsksOver (P.peer over) order request.now →
        IsCalled P.ConnectionProvider sent.of now order (P.log provider.old) (P.log provider.new) result }
{
    match provider.send(over, request, now) {
        Ok(exchange) => Called::Going(Awaited::Answer { exchange, sent }),
        Err(error) => refusal(sent, error),
    }
}

/// Calls the provider for an order, by an entry of the number `of`, with the question of the order. An ask
/// goes over a connection, and of a sleep the provider hears nothing.
pub fn call<P: ConnectionProvider>(
    provider: &mut P,
    options: &ConnectOptions,
    order: &Order,
    over: Option<P::Conn>,
    query: Option<Query>,
    of: u64,
    now: u64,
) -> Called<P::FutureConn, P::Exchange>
    requires over { IsOver P.ConnectionProvider order.now over }
    requires query { query ≡ query_of order.now }
    ensures vouches { (es : List LogEntry) → P.vouches provider.new es → P.vouches provider.old es }
    ensures called { IsCalled P.ConnectionProvider of now order.now (P.log provider.old) (P.log provider.new) result }
    ensures quiet { IsQuiet order.now provider.old provider.new }
{
    match order {
        Order::Open { ip, config } => {
            let sent = SentBy {
                of,
                ip: *ip,
                moment: now,
                query,
            };
            call_open(provider, options, *ip, config, sent, now)
        }
        Order::Ask { ip, request, .. } => {
            let Some(conn) = over else { unreachable!() };
            let sent = SentBy {
                of,
                ip: *ip,
                moment: now,
                query,
            };
            call_ask(provider, conn, request, sent, now)
        }
        Order::Sleep { until } => Called::Going(Awaited::Moment { until: *until }),
    }
}
