//! The filters of a recursor, and the addresses of a world.
ghost use Rattle.std.specs.Prelude.{◌≡◌};
ghost use Rattle.std.specs.List.{list_all};
ghost use Rattle.world_check.specs.Filters.{is_allowed, has_allowed_addresses};

use crate::serving::address;
use dns_core::{NoMemory, Record, TryClone};
use resolver_settings::AccessControlSet;
use std::alloc::Global;
use zone_worlds::{World, Zone};

/// The addresses that are never asked, and those that no answer may hold.
#[derive(Debug)]
pub struct WorldFilters {
    pub server: AccessControlSet,
    pub answer: AccessControlSet,
}

impl Drop for WorldFilters {
    fn drop(self) {
        let WorldFilters {
            server: _,
            answer: _,
        } = self;
    }
}

impl TryClone for WorldFilters {
    fn try_clone(&self, alloc: Global) -> Result<Self, NoMemory> {
        let server = self.server.try_clone(alloc)?;
        let answer = self.answer.try_clone(alloc)?;
        Ok(WorldFilters { server, answer })
    }
}

fn is_allowed(filters: &WorldFilters, r: &Record) -> bool
    ensures { result ≡ is_allowed filters.now r.now }
{
    match address(r) {
        None => true,
        Some(ip) => !filters.server.denied(ip) && !filters.answer.denied(ip),
    }
}

fn are_allowed(filters: &WorldFilters, zone: &Zone) -> bool
    ensures { result ≡ list_all (is_allowed filters.now) zone.now.records }
{
    zone.records.items().iter().all(|r| is_allowed(filters, r))
}

/// Whether no address of the world is denied by a filter.
pub(crate) fn has_allowed_addresses(world: &World, filters: &WorldFilters) -> bool
    ensures { result ≡ has_allowed_addresses world.now filters.now }
{
    world
        .zones
        .items()
        .iter()
        .all(|zone| are_allowed(filters, zone))
}
