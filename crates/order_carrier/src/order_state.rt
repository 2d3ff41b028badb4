//! What stands under the number and the form of an order.

use crate::under_way::{Connection, UnderWay};
use dns_core::ConnectionProvider;

/// Room for an order that has not been started, one that is under way, the connection that it made, or
/// nothing any more.
#[derive(Drop)]
pub enum OrderState<P: ConnectionProvider> {
    Reserved,
    InFlight(UnderWay<P>),
    Connected(Connection<P>),
    Done,
}
