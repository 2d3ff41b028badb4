//! What is found in a cache of bounded size, and what leaves it.

use dns_core::{Name, NameError, NoMemory};
use recent_cache::{HashKeys, RecentCache};
use std::alloc::Global;
use std::hash::RandomState;
use std::test::Fail;
use tests_samples::{Machine, domain, runs};

/// Puts a number under the name of a zone, or looks for the name.
#[derive(Clone, Copy)]
enum Call {
    Put(&'static str, u32),
    Get(&'static str),
    Count,
}

/// A number that is found, or how many there are.
#[derive(Clone, Copy, Debug, PartialEq)]
enum Seen {
    Done,
    Nothing,
    Number(u32),
    Pairs(usize),
}

/// Numbers by zone.
#[derive(Drop)]
struct Zones {
    cache: RecentCache<Name, u32>,
}

impl Machine<Call, Seen> for Zones {
    fn see(&mut self, alloc: Global, call: Call, _now: u64) -> Result<Seen, NameError> {
        match call {
            Call::Put(zone, number) => {
                self.cache.put(domain(alloc, zone)?, number)?;
                Ok(Seen::Done)
            }
            Call::Get(zone) => match self.cache.get(&domain(alloc, zone)?) {
                Some(number) => Ok(Seen::Number(*number)),
                None => Ok(Seen::Nothing),
            },
            Call::Count => Ok(Seen::Pairs(self.cache.len())),
        }
    }
}

fn zones_of(alloc: Global, size: usize, keys: HashKeys) -> Result<Zones, NoMemory> {
    Ok(Zones {
        cache: RecentCache::new(alloc, size, keys)?,
    })
}

#[test]
fn the_least_used_zone_leaves(rt: HostRuntime) -> Result<(), Fail> {
    runs(
        rt.alloc(),
        zones_of(rt.alloc(), 2, HashKeys::Fixed),
        &[
            (0, Call::Put("a.", 1), Seen::Done),
            (0, Call::Put("b.", 2), Seen::Done),
            (0, Call::Get("A."), Seen::Number(1)),
            (0, Call::Put("c.", 3), Seen::Done),
            (0, Call::Get("b."), Seen::Nothing),
            (0, Call::Get("a."), Seen::Number(1)),
            (0, Call::Put("C.", 4), Seen::Done),
            (0, Call::Count, Seen::Pairs(2)),
            (0, Call::Get("c."), Seen::Number(4)),
        ],
    )
}

#[test]
fn a_cache_without_room_keeps_nothing(rt: HostRuntime) -> Result<(), Fail> {
    runs(
        rt.alloc(),
        zones_of(rt.alloc(), 0, HashKeys::Given(RandomState::new(&rt)?)),
        &[
            (0, Call::Put("a.", 1), Seen::Done),
            (0, Call::Get("a."), Seen::Nothing),
            (0, Call::Count, Seen::Pairs(0)),
        ],
    )
}
