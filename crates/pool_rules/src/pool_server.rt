//! A server of a pool as a lookup sees it, and what the end of a send to it does.

use dns_core::{Message, NetError};

/// A server of a pool, by its number: whether it is reached over another protocol than UDP, and
/// whether it is believed that a name does not exist.
#[derive(Clone, Copy, Debug, PartialEq, Eq)]
pub struct PoolServer {
    pub server: u32,
    pub beyond_udp: bool,
    pub trusted: bool,
}

/// What the end of a send does: it turns UDP off, passes the question on to another server, or ends
/// the lookup.
#[derive(Clone, Copy, Debug, PartialEq, Eq)]
pub enum OnError {
    FallBackToTcp,
    NextServer,
    Final,
}

/// What an end that was heard came to: the lookup goes on, or answers this.
#[derive(Drop)]
pub enum Heard {
    Continue,
    Concluded(Result<Message, NetError>),
}
