//! Copies of worlds and answers.

use crate::world::{Host, World, WorldAnswer, Zone};
use dns_core::{Items, NoMemory, TryClone};
use std::alloc::Global;

impl TryClone for Zone {
    fn try_clone(&self, alloc: Global) -> Result<Self, NoMemory> {
        let apex = self.apex.try_clone(alloc)?;
        let records = self.records.try_clone(alloc)?;
        Ok(Zone { apex, records })
    }
}

impl TryClone for Host {
    fn try_clone(&self, alloc: Global) -> Result<Self, NoMemory> {
        let zones = Vec::from_slice(alloc, self.zones.items())?;
        Ok(Host {
            ip: self.ip,
            zones: Items::new(zones),
        })
    }
}

impl TryClone for World {
    fn try_clone(&self, alloc: Global) -> Result<Self, NoMemory> {
        let zones = self.zones.try_clone(alloc)?;
        let hosts = self.hosts.try_clone(alloc)?;
        Ok(World {
            zones,
            hosts,
            chain: self.chain,
            delay: self.delay,
        })
    }
}

impl TryClone for WorldAnswer {
    fn try_clone(&self, alloc: Global) -> Result<Self, NoMemory> {
        match self {
            WorldAnswer::Records(records) => {
                let records = records.try_clone(alloc)?;
                Ok(WorldAnswer::Records(records))
            }
            WorldAnswer::NxDomain => Ok(WorldAnswer::NxDomain),
            WorldAnswer::NoData => Ok(WorldAnswer::NoData),
        }
    }
}
