//! Pools of servers: those of a zone, say, and until when they are good.
ghost use Rattle.std.specs.Prelude.{◌≡◌, IfOk, Some, option_map, IsTrue, ◌↔◌};
ghost use Rattle.server_pool.specs.Pool.{IsPoolOf, good_for, IsExpired, IsCopyOf};

use dns_core::{Name, NoMemory, TryClone};
use std::alloc::Global;

/// The numbers of servers in a table, in the order of their configuration; the zone that they serve,
/// where they were found for one; and the last moment at which they are good, in microseconds, where
/// there is one. `number` is that of the pool: its copies share it, and with it whose turn it is.
#[derive(Debug)]
pub struct NameServerPool {
    number: u64,
    servers: Vec<u32>,
    zone: Option<Name>,
    last: Option<u64>,
}

impl Drop for NameServerPool {
    fn drop(self) {
        let NameServerPool {
            number: _,
            servers: _,
            zone: _,
            last: _,
        } = self;
    }
}

impl NameServerPool {
    /// The pool of a number with these servers, of no zone, and good for ever.
    pub(crate) fn numbered(number: u64, servers: Vec<u32>) -> Self
        ensures { IsPoolOf number servers.items result }
    {
        NameServerPool {
            number,
            servers,
            zone: None,
            last: None,
        }
    }

    /// The pool, good until so many microseconds after a moment.
    pub fn with_ttl(self, ttl: u64, now: u64) -> Self
        ensures { result ≡ good_for ttl now self }
    {
        let NameServerPool {
            number,
            servers,
            zone,
            last: _,
        } = self;
        NameServerPool {
            number,
            servers,
            zone,
            last: Some(now.saturating_add(ttl)),
        }
    }

    /// The pool as that of a zone.
    pub fn with_zone(self, zone: Name) -> Self
        ensures { result ≡ record self { zone = Some zone } }
    {
        let NameServerPool {
            number,
            servers,
            zone: _,
            last,
        } = self;
        NameServerPool {
            number,
            servers,
            zone: Some(zone),
            last,
        }
    }

    /// Whether it is no longer good at a moment: one later than its last.
    pub fn ttl_expired(&self, now: u64) -> bool
        ensures { IsTrue result ↔ IsExpired self.now now }
    {
        match self.last {
            Some(last) => last < now,
            None => false,
        }
    }

    pub fn zone(&self) -> Option<&Name>
        ensures { option_map (λ zone. zone.now) result ≡ self.now.zone }
    {
        self.zone.as_ref()
    }

    /// The numbers of its servers.
    pub fn servers(&self) -> &[u32]
        ensures { result.now ≡ self.now.servers.items }
    {
        self.servers.as_slice()
    }

    pub(crate) fn into_servers(self) -> Vec<u32>
        ensures { result ≡ self.servers }
    {
        let NameServerPool {
            number: _,
            servers,
            zone: _,
            last: _,
        } = self;
        servers
    }

    /// Its number, which its copies share.
    pub fn number(&self) -> u64
        ensures { result ≡ self.now.number }
    {
        self.number
    }

    /// A copy, which shares its number.
    pub fn try_clone(&self, alloc: Global) -> Result<Self, NoMemory>
        ensures { IfOk result (λ copy. IsCopyOf copy self.now) }
    {
        Ok(NameServerPool {
            number: self.number,
            servers: Vec::from_slice(alloc, self.servers.as_slice())?,
            zone: self.zone.try_clone(alloc)?,
            last: self.last,
        })
    }
}
