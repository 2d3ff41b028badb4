//! Starts orders.
ghost use Rattle.std.specs.Prelude.{◌≡◌, ◌<◌, ◌+◌, ◌^◌, ◌≢◌, true, IsSome, IfSome, IfNone, IfOk, OnOk, List, Some};
ghost use Rattle.std.specs.Result.{result_ok};
ghost use Rattle.dns_core.specs.declared.log.LogEntry.{LogEntry};
ghost use Rattle.order_carrier.specs.Awaited.{query_of};
ghost use Rattle.order_carrier.specs.Calling.{IsOver};
ghost use Rattle.order_carrier.specs.Did.{HasNumbers, HasConnection};
ghost use Rattle.order_carrier.specs.Did.Stand.{Unseen, Made};
ghost use Rattle.order_carrier.specs.Growing.{Counted};
ghost use Rattle.order_carrier.specs.Stand.{slot_at, stand_at, IsPutAt};
ghost use Rattle.order_carrier.specs.Carrying.{Carries, IsRoomMade};

use crate::calling::{Called, call};
use crate::carrier::Carrier;
use crate::key::{Form, OrderKey};
use crate::order_state::OrderState;
use crate::under_way::UnderWay;
use dns_core::{ConnectionProvider, NetError, NoMemory, Protocol, Query, TryClone, in_box};
use server_core::{Order, Outcome, SentBy};
use std::alloc::Global;
use std::net::IpAddr;

/// A copy of the question of an order, where it has one.
fn question(alloc: Global, order: &Order) -> Result<Option<Query>, NoMemory>
    ensures { IfOk result (λ query. query ≡ query_of order.now) }
{
    match order {
        Order::Ask { request, .. } => {
            let query = request.query.try_clone(alloc)?;
            Ok(Some(query))
        }
        Order::Open { .. } | Order::Sleep { .. } => Ok(None),
    }
}

/// A copy of an order, in memory of its own.
fn boxed_copy(alloc: Global, order: &Order) -> Result<Box<Order>, NoMemory>
    ensures { IfOk result (λ copy. copy.value ≡ order.now) }
{
    let copy = order.try_clone(alloc)?;
    in_box(alloc, copy)
}

impl<P: ConnectionProvider> Carrier<P> {
    /// The connection that an order made, where it is to this address and over this protocol.
    fn connection(&self, conn: u64, ip: IpAddr, protocol: Protocol) -> Option<P::Conn>
        ensures some { IfSome result (λ found. P.peer found ≡ record { ip = ip; protocol = protocol }) }
        ensures made { IfSome result (λ found. stand_at self.now.slots (record { number = conn; form = Form.Open }) ≡ Made (record { ip = ip; protocol = protocol })) }
        ensures none { IfNone result (stand_at self.now.slots (record { number = conn; form = Form.Open }) ≢ Made (record { ip = ip; protocol = protocol })) }
    {
        let key = OrderKey {
            number: conn,
            form: Form::Open,
        };
        match self.slots.get(&key) {
            Some(OrderState::Connected(made)) => made.over(ip, protocol),
            None | Some(OrderState::Reserved | OrderState::InFlight(_) | OrderState::Done) => None,
        }
    }

    /// Over which connection an order goes, where it may start: an ask goes over the one that it names,
    /// and the others over none.
    fn way(&self, order: &Order) -> Option<Option<P::Conn>>
        ensures some { IfSome result (λ over. HasConnection (stand_at self.now.slots) order.now × IsOver P.ConnectionProvider order.now over) }
        ensures none { IfNone result (HasConnection (stand_at self.now.slots) order.now → ⊥) }
    {
        match order {
            Order::Ask {
                conn,
                ip,
                protocol,
                ..
            } => match self.connection(*conn, *ip, *protocol) {
                Some(conn) => Some(Some(conn)),
                None => None,
            },
            Order::Open { .. } => Some(None),
            Order::Sleep { .. } => Some(None),
        }
    }

    /// Takes what a start needs: a copy of the order and of its question, numbers for its entries and for
    /// that of a give-up, and a place.
    fn make_room(
        &mut self,
        key: OrderKey,
        order: &Order,
    ) -> Result<(Box<Order>, Option<Query>), NoMemory>
        requires { stand_at self.old.slots key ≡ Unseen }
        ensures made { IsRoomMade key self.old self.new }
        ensures room { OnOk result (HasNumbers self.old.entries × IsSome (slot_at self.new.slots key)) }
        ensures copies { IfOk result (λ copies. (copies.0.value ≡ order.now) × (copies.1 ≡ query_of order.now)) }
    {
        if !self.has_numbers() {
            return Err(NoMemory);
        }
        let query = question(self.alloc, order)?;
        let copy = boxed_copy(self.alloc, order)?;
        match self.slots.insert(key, OrderState::Reserved) {
            Ok(before) => {
                drop(before);
                Ok((copy, query))
            }
            Err(failed) => {
                drop(failed);
                drop(copy);
                Err(NoMemory)
            }
        }
    }

    /// An order was refused by an entry of its own, and is over.
    fn refuse(&mut self, key: OrderKey, sent: SentBy, error: NetError) -> Outcome
        requires numbers { self.old.entries + 2 < 2 ^ 64 }
        requires place { IsSome (slot_at self.old.slots key) }
        ensures told { result ≡ Outcome.Failed (self.old.entries + 1) sent true error }
        ensures entries { self.new.entries ≡ self.old.entries + 1 }
        ensures same { (self.new.provider ≡ self.old.provider) × (self.new.options ≡ self.old.options) }
        ensures slots { IsPutAt key OrderState.Done self.old.slots self.new.slots }
    {
        let entry = self.entries + 1;
        self.put(key, OrderState::Done);
        self.entries = entry;
        Outcome::Failed {
            entry,
            sent,
            refused: true,
            error,
        }
    }

    /// Starts an order that has its connection, if it is an ask, and polls it once.
    pub(crate) fn start(
        &mut self,
        key: OrderKey,
        order: &Order,
        now: u64,
    ) -> Result<Option<Outcome>, NoMemory>
        requires unseen { stand_at self.old.slots key ≡ Unseen }
        requires counted { self.old.entries + 1 < 2 ^ 64 → Counted (P.log self.old.provider) self.old.entries }
        ensures vouches { (es : List LogEntry) → P.vouches self.new.provider es → P.vouches self.old.provider es }
        ensures carries { Carries P.ConnectionProvider key order.now now self.old self.new (result_ok result) }
    {
        let Some(over) = self.way(order) else {
            return Ok(None);
        };
        let (copy, query) = self.make_room(key, order)?;
        let of = self.entries + 1;
        match call(
            &mut self.provider,
            &self.options,
            order,
            over,
            query,
            of,
            now,
        ) {
            Called::OutOfMemory => Err(NoMemory),
            Called::Refused(sent, error) => Ok(Some(self.refuse(key, sent, error))),
            Called::Going(awaited) => {
                self.count_sent(&awaited);
                let under_way = UnderWay {
                    order: copy,
                    awaited,
                };
                self.poll(key, under_way, now)
            }
        }
    }
}
