//! An order that is under way, and a connection that one made.
ghost use Rattle.std.specs.Prelude.{◌≡◌, IsTrue};
ghost use Rattle.order_carrier.specs.Awaited.{aim, aim_of, sent_of, may_be_polled, IsSentFor};
ghost use Rattle.order_carrier.specs.Awaited.Aim.{Reaches};

use crate::awaited::Awaited;
use dns_core::{ConnectionProvider, Protocol};
use server_core::{Order, same_address};
use std::net::IpAddr;

/// An order, and what it waits for. That may be polled, goes where the order goes, and was sent for it.
#[derive(Drop)]
pub struct UnderWay<P: ConnectionProvider> {
    pub order: Box<Order>,
    pub awaited: Awaited<P::FutureConn, P::Exchange>,
    ghost polls: { IsTrue (may_be_polled P.opens P.waits awaited) },
    ghost goes: { aim P.opening P.question awaited ≡ aim_of order.value },
    ghost sends: { IsSentFor order.value (sent_of awaited) },
}

/// A connection, and the order that made it, which reaches its peer.
#[derive(Drop)]
pub struct Connection<P: ConnectionProvider> {
    pub conn: P::Conn,
    pub order: Box<Order>,
    ghost reaches: { aim_of order.value ≡ Reaches (P.peer conn) },
}

impl<P: ConnectionProvider> Connection<P> {
    ghost use Rattle.std.specs.Prelude.{◌≢◌, IfSome, IfNone};

    /// The connection, where it is to this address and over this protocol.
    pub fn over(&self, ip: IpAddr, protocol: Protocol) -> Option<P::Conn>
        ensures some { IfSome result (λ conn. (conn ≡ self.now.conn) × (P.peer conn ≡ record { ip = ip; protocol = protocol })) }
        ensures none { IfNone result (P.peer self.now.conn ≢ record { ip = ip; protocol = protocol }) }
    {
        let Order::Open { ip: at, config } = &*self.order else {
            return None;
        };
        if same_address(*at, ip) && config.protocol.to_protocol() == protocol {
            Some(self.conn)
        } else {
            None
        }
    }
}
