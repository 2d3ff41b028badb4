//! How a world is seen: by its zones, or through an index too.
ghost use Rattle.std.specs.Prelude.{◌≡◌};
ghost use Rattle.zone_rules.specs.Tree.{serves};
ghost use Rattle.world_layout.specs.Sight.{world_of};

use dns_core::Label;
use std::net::IpAddr;
use zone_worlds::{IndexedWorld, World};

/// A world, seen plainly or with its index.
#[derive(Clone, Copy)]
pub enum Sight<'w> {
    Plain(&'w World),
    Indexed(&'w IndexedWorld),
}

impl<'w> Sight<'w> {
    /// The world that is seen.
    pub fn world(self) -> &'w World
        ensures { result.now ≡ world_of self.entry }
    {
        match self {
            Sight::Plain(world) => world,
            Sight::Indexed(indexed) => indexed.world(),
        }
    }

    /// Whether the address is a host that serves the zone whose apex has these labels.
    pub fn serves(self, ip: IpAddr, apex: &[Label]) -> bool
        ensures { result ≡ serves (world_of self.entry) ip apex.now }
    {
        match self {
            Sight::Plain(world) => world.serves(ip, apex),
            Sight::Indexed(indexed) => indexed.serves(ip, apex),
        }
    }
}
