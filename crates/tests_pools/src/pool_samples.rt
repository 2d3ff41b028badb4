//! Pools of servers that are reached over UDP and TCP, and lookups at them.

use crate::outcome_samples::{What, outcome, tick};
use crate::server_samples::{context, unopened};
use crate::sights::Seen;
use dns_core::{Delays, DnsRequest, DnsRequestOptions, NameError, NoMemory};
use server_pool::{NameServerPool, PoolLookup, PoolShared};
use std::alloc::Global;
use std::mem;
use tests_samples::{Machine, plain, query, request, seen};

/// Calls. Pools and lookups are called by their places, from 0 on.
#[derive(Clone, Copy)]
pub enum Call {
    /// A server is added.
    Add,
    /// How many servers there are.
    CountServers,
    /// A pool of one more server, which starts with this delay.
    Configure,
    /// A pool of servers that are there.
    Group(&'static [u32]),
    /// A copy of a pool.
    Copy(usize),
    /// A lookup for `a.` at a pool.
    Lookup(usize),
    /// A request for the addresses of a name at a pool, with or without DNSSEC records.
    Send(usize, &'static str, bool),
    /// The next step of a lookup.
    Next(usize),
    /// An outcome of the order of a number.
    Put(u64, What),
    /// What a lookup answers so far.
    Answer(usize),
    /// The numbers of the servers of a lookup, of its open orders, and of its ends.
    Servers(usize),
    Open(usize),
    Ends(usize),
    /// The first of the lookups is left; those behind it move up.
    Leave,
    /// The next order that is withdrawn.
    Withdraw,
    /// Other servers and lookups stand in place of these.
    Replace,
}

fn none(alloc: Global) -> Result<PoolShared, NameError> {
    Ok(PoolShared::new(alloc, context(alloc)?))
}

fn numbers(found: &[u64]) -> Seen {
    Seen::Numbers(found.len(), found.first().copied(), found.get(1).copied())
}

fn add(alloc: Global, shared: &mut PoolShared) -> Result<Seen, NoMemory> {
    Ok(Seen::Server(shared.add(alloc, unopened(alloc)?)?))
}

fn configured(alloc: Global, shared: &mut PoolShared) -> Result<NameServerPool, NoMemory> {
    let delays = Delays::new(vec![in alloc; 1]?);
    let configs = listed(alloc, plain(alloc)?)?;
    NameServerPool::from_config(alloc, configs, &delays, shared)
}

fn grouped(
    alloc: Global,
    shared: &mut PoolShared,
    servers: &[u32],
) -> Result<NameServerPool, NoMemory> {
    NameServerPool::from_nameservers(alloc, Vec::from_slice(alloc, servers)?, shared)
}

/// A list of one item.
fn listed<T: Drop>(alloc: Global, item: T) -> Result<Vec<T>, NoMemory> {
    let mut list = Vec::new(alloc);
    list.push(item)?;
    Ok(list)
}

/// The place of the first of these numbers, which has been added to them.
fn place_of(numbers: &[u64], number: u64) -> usize {
    numbers.iter().position(|n| *n == number).unwrap_or(0)
}

/// The servers, the pools, and the lookups at them, in the order in which they began, and the numbers that
/// pools and lookups had.
#[derive(Drop)]
pub struct Course {
    shared: PoolShared,
    pools: Vec<NameServerPool>,
    lookups: Vec<PoolLookup>,
    pool_numbers: Vec<u64>,
    lookup_numbers: Vec<u64>,
}

impl Course {
    /// Without servers, pools and lookups.
    pub fn new(alloc: Global) -> Result<Course, NameError> {
        Ok(Course {
            shared: none(alloc)?,
            pools: Vec::new(alloc),
            lookups: Vec::new(alloc),
            pool_numbers: Vec::new(alloc),
            lookup_numbers: Vec::new(alloc),
        })
    }

    fn keep_pool(&mut self, pool: NameServerPool) -> Result<Seen, NoMemory> {
        let (number, count) = (pool.number(), pool.servers().len());
        self.pools.push(pool)?;
        self.pool_numbers.push(number)?;
        Ok(Seen::Pool(place_of(&self.pool_numbers, number), count))
    }

    fn keep_lookup(&mut self, lookup: PoolLookup) -> Result<Seen, NoMemory> {
        let number = lookup.number();
        self.lookups.push(lookup)?;
        self.lookup_numbers.push(number)?;
        Ok(Seen::Lookup(place_of(&self.lookup_numbers, number)))
    }

    fn configure(&mut self, alloc: Global) -> Result<Seen, NoMemory> {
        let pool = configured(alloc, &mut self.shared)?;
        self.keep_pool(pool)
    }

    fn group(&mut self, alloc: Global, servers: &[u32]) -> Result<Seen, NoMemory> {
        let pool = grouped(alloc, &mut self.shared, servers)?;
        self.keep_pool(pool)
    }

    fn copy(&mut self, alloc: Global, at: usize) -> Result<Seen, NoMemory> {
        match self.pools.get(at) {
            Some(pool) => {
                let copy = pool.try_clone(alloc)?;
                self.keep_pool(copy)
            }
            None => Ok(Seen::Nothing),
        }
    }

    fn look_up(&mut self, alloc: Global, at: usize, now: u64) -> Result<Seen, NameError> {
        match self.pools.get(at) {
            Some(pool) => {
                let query = query(alloc, "a.")?;
                let options = DnsRequestOptions::standard();
                let lookup = pool.lookup(alloc, &mut self.shared, query, options, tick(now))?;
                Ok(self.keep_lookup(lookup)?)
            }
            None => Ok(Seen::Nothing),
        }
    }

    fn send(
        &mut self,
        alloc: Global,
        at: usize,
        request: DnsRequest,
        now: u64,
    ) -> Result<Seen, NoMemory> {
        match self.pools.get(at) {
            Some(pool) => {
                let lookup = pool.send(alloc, &mut self.shared, request, tick(now))?;
                self.keep_lookup(lookup)
            }
            None => Ok(Seen::Nothing),
        }
    }

    fn next(&mut self, alloc: Global, at: usize, now: u64) -> Result<Seen, NoMemory> {
        match self.lookups.get_mut(at) {
            Some(lookup) => Ok(seen(lookup.next(alloc, &mut self.shared, tick(now))?)),
            None => Ok(Seen::Nothing),
        }
    }

    /// An outcome of the order of a number comes by the entry that is ten times the number.
    fn put(&mut self, alloc: Global, number: u64, what: What, now: u64) -> Result<Seen, NameError> {
        let outcome = outcome(alloc, what, number.saturating_mul(10))?;
        let after = self.shared.put(alloc, number, outcome, tick(now))?;
        Ok(Seen::Has(after))
    }

    fn answer(&self, alloc: Global, at: usize) -> Result<Seen, NoMemory> {
        match self.lookups.get(at) {
            Some(lookup) => Ok(seen(lookup.answer(alloc, &self.shared)?)),
            None => Ok(Seen::Nothing),
        }
    }

    fn servers(&self, alloc: Global, at: usize) -> Result<Seen, NoMemory> {
        match self.lookups.get(at) {
            Some(lookup) => Ok(numbers(lookup.servers(alloc, &self.shared)?.items())),
            None => Ok(Seen::Nothing),
        }
    }

    fn open_orders(&self, alloc: Global, at: usize) -> Result<Seen, NoMemory> {
        match self.lookups.get(at) {
            Some(lookup) => Ok(numbers(lookup.open_orders(alloc, &self.shared)?.items())),
            None => Ok(Seen::Nothing),
        }
    }

    fn ends(&self, at: usize) -> Seen {
        match self.lookups.get(at) {
            Some(lookup) => numbers(lookup.ends(&self.shared)),
            None => Seen::Nothing,
        }
    }

    fn leave(&mut self) -> Seen {
        if !self.lookups.is_empty() {
            self.lookups.remove(0).leave(&mut self.shared);
        }
        Seen::Nothing
    }

    fn replace(&mut self, alloc: Global) -> Result<Seen, NameError> {
        drop(mem::replace(&mut self.shared, none(alloc)?));
        Ok(Seen::Nothing)
    }
}

impl Machine<Call, Seen> for Course {
    fn see(&mut self, alloc: Global, call: Call, now: u64) -> Result<Seen, NameError> {
        match call {
            Call::Add => Ok(add(alloc, &mut self.shared)?),
            Call::CountServers => Ok(Seen::Servers(self.shared.live_servers())),
            Call::Configure => Ok(self.configure(alloc)?),
            Call::Group(servers) => Ok(self.group(alloc, servers)?),
            Call::Copy(at) => Ok(self.copy(alloc, at)?),
            Call::Lookup(at) => self.look_up(alloc, at, now),
            Call::Send(at, name, dnssec) => {
                Ok(self.send(alloc, at, request(alloc, name, dnssec)?, now)?)
            }
            Call::Next(at) => Ok(self.next(alloc, at, now)?),
            Call::Put(number, what) => self.put(alloc, number, what, now),
            Call::Answer(at) => Ok(self.answer(alloc, at)?),
            Call::Servers(at) => Ok(self.servers(alloc, at)?),
            Call::Open(at) => Ok(self.open_orders(alloc, at)?),
            Call::Ends(at) => Ok(self.ends(at)),
            Call::Leave => Ok(self.leave()),
            Call::Withdraw => Ok(Seen::Withdrawn(self.shared.take_withdrawn())),
            Call::Replace => self.replace(alloc),
        }
    }
}
