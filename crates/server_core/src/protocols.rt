//! The protocols of a server.
ghost use Rattle.std.specs.Iterator.{YieldsFirst, item_count};
ghost use Rattle.server_core.specs.Protocols.{protocols_of};

use dns_core::{ConnectionConfig, Protocol};

/// The protocols over which a server is reached, one after the other.
#[derive(Drop)]
pub struct Protocols<'a> {
    pub left: &'a [ConnectionConfig],
}

impl<'a> Iterator for Protocols<'a> {
    type Item = Protocol;

    ghost next_gives = { YieldsFirst (λ protocols. protocols_of protocols.left.now) };

    ghost remaining = { item_count (λ protocols. protocols_of protocols.left.now) };

    fn next(&mut self) -> Option<Protocol> {
        let (first, others) = self.left.split_first()?;
        self.left = others;
        Some(first.protocol.to_protocol())
    }
}
