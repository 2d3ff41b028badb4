//! The cache of responses.
ghost use Rattle.std.specs.Prelude.{◌≡◌, ◌↔◌, ◌==◌, [], length, IfOk, OnOk, OnErr, IsErr, IsTrue, false};
ghost use Rattle.std.specs.List.{list_any};
ghost use Rattle.std.specs.Option.{option_copied};
ghost use Rattle.resolver_settings.specs.Ttl.{has_reversed};
ghost use Rattle.kept_responses.specs.Entry.{is_for, current_for};
ghost use Rattle.resolver_cache.specs.Cache.{read, found_for, upserted, new_expiry, KeepsNothing, IsSound};
ghost use Rattle.resolver_cache.specs.Index.{ArePlaced};
ghost use Rattle.std.specs.Map.{values_of};

use crate::bounds::ReversedTtl;
use crate::index::Index;
use crate::life::{life_of, moment_after, seconds_between};
use dns_core::{Message, NetError, NoMemory, Query, TryClone};
use kept_responses::{CachedResponse, Entry, KeptEntry};
use resolver_settings::TtlConfig;
use std::alloc::Global;
use std::marker::Model;

/// Responses under their questions, each until its expiry, and no more of them than the size.
#[derive(Debug)]
pub struct ResponseCache {
    size: u64,
    config: TtlConfig,
    index: Index,
}

impl Drop for ResponseCache {
    fn drop(self) {
        let ResponseCache {
            size: _,
            config: _,
            index: _,
        } = self;
    }
}

impl Model for ResponseCache {
    ghost use Rattle.resolver_cache.specs.Cached.{Cached, IsWithin};

    ghost Value = { Cached };

    ghost use Rattle.std.specs.Map.{values_of};
    ghost use Rattle.resolver_cache.specs.Index.{ArePlaced};

    ghost view = { λ a. record { size = a.size; config = a.config; entries = values_of a.index.writings } };

    ghost invariant = { λ a. IsWithin a.size (values_of a.index.writings) × ArePlaced a.index.writings a.index.places };
}

/// When a new entry for a question expires that lives so many seconds. With `clamp` it is no later
/// than what is current.
fn new_expiry(index: &Index, query: &Query, now: u64, clamp: bool, life: u64) -> u64
    requires { ArePlaced index.now.writings index.now.places }
    ensures { result ≡ new_expiry (values_of index.now.writings) query.now now clamp life }
{
    let whole = moment_after(now, life);
    if !clamp {
        return whole;
    }
    match index.current_for(query, now) {
        Some(e) => whole.min(e.expiry()),
        None => whole,
    }
}

impl ResponseCache {
    /// An empty cache for so many responses. It takes no memory.
    pub fn new(alloc: Global, size: u64, config: TtlConfig) -> Result<Self, ReversedTtl>
        ensures ok { IfOk result (λ cache. cache ≡ record { size = size; config = config; entries = [] }) }
        ensures reversed { IsErr result ↔ IsTrue (has_reversed config) }
    {
        if config.is_reversed() {
            return Err(ReversedTtl);
        }
        Ok(ResponseCache {
            size,
            config,
            index: Index::new(alloc),
        })
    }

    /// The response to a question, as it reads at a moment.
    pub fn get(
        &self,
        alloc: Global,
        query: &Query,
        now: u64,
    ) -> Result<Option<Result<Message, NetError>>, NoMemory>
        ensures { IfOk result (λ found. found ≡ read self.now query.now now) }
    {
        match self.find(alloc, query, now)? {
            Some(found) => Ok(Some(found.response)),
            None => Ok(None),
        }
    }

    /// The response to a question, as it reads at a moment, with its source.
    pub fn find(
        &self,
        alloc: Global,
        query: &Query,
        now: u64,
    ) -> Result<Option<CachedResponse>, NoMemory>
        ensures { IfOk result (λ found. found ≡ found_for self.now query.now now) }
    {
        match self.index.current_for(query, now) {
            Some(e) => {
                let seconds = seconds_between(e.written(), now);
                Ok(Some(CachedResponse {
                    response: e.lowered(alloc, seconds)?,
                    source: e.source(),
                }))
            }
            None => Ok(None),
        }
    }

    /// The entry for a question, where it is current at a moment: its response as it was written.
    pub fn current(&self, query: &Query, now: u64) -> Option<&KeptEntry>
        ensures { option_copied result ≡ current_for query.now now self.now.entries }
    {
        self.index.current_for(query, now)
    }

    /// Writes a response, for as long as it says.
    pub fn insert(
        &mut self,
        alloc: Global,
        query: Query,
        response: Result<Message, NetError>,
        now: u64,
    ) -> Result<(), NoMemory>
        ensures ok { OnOk result (self.new ≡ upserted self.old query response 0 now false) }
        ensures err { OnErr result (self.new ≡ self.old) }
    {
        self.upsert_clamped_ttl(alloc, query, response, now, false)
    }

    /// Writes a response. With `clamp` a repeated answer does not move the expiry of a current one
    /// to a later moment.
    pub fn upsert_clamped_ttl(
        &mut self,
        alloc: Global,
        query: Query,
        response: Result<Message, NetError>,
        now: u64,
        clamp: bool,
    ) -> Result<(), NoMemory>
        ensures ok { OnOk result (self.new ≡ upserted self.old query response 0 now clamp) }
        ensures err { OnErr result (self.new ≡ self.old) }
    {
        self.upsert_told(alloc, query, response, 0, now, clamp)
    }

    /// The same for a response that the log entry of this number told.
    pub fn upsert_told(
        &mut self,
        alloc: Global,
        query: Query,
        response: Result<Message, NetError>,
        source: u64,
        now: u64,
        clamp: bool,
    ) -> Result<(), NoMemory>
        ensures ok { OnOk result (self.new ≡ upserted self.old query response source now clamp) }
        ensures err { OnErr result (self.new ≡ self.old) }
    {
        let Some(life) = life_of(&self.config, query.query_type, &response) else {
            return Ok(());
        };
        let expiry = new_expiry(&self.index, &query, now, clamp, life);
        let entry = Entry {
            query,
            response,
            written: now,
            expiry,
            source,
        };
        let kept = KeptEntry::new(alloc, entry)?;
        self.index.put(alloc, self.size, kept)
    }

    /// Whether it keeps nothing, whatever is written.
    pub fn keeps_nothing(&self) -> bool
        ensures size { result ≡ (self.now.size == 0) }
        ensures nothing { IsTrue result → KeepsNothing self.now }
    {
        self.size == 0
    }

    pub fn entry_count(&self) -> u64
        ensures count { result ≡ length self.now.entries }
        ensures sound { IsSound self.now }
    {
        self.index.len() as u64
    }

    /// Whether there is an entry for a question, expired or not.
    pub fn has(&self, query: &Query) -> bool
        ensures { result ≡ list_any (is_for query.now) self.now.entries }
    {
        self.index.has(query)
    }
}

impl TryClone for ResponseCache {
    fn try_clone(&self, alloc: Global) -> Result<Self, NoMemory> {
        let config = self.config.try_clone(alloc)?;
        let (index, _next) = self.index.renumbered(alloc)?;
        Ok(ResponseCache {
            size: self.size,
            config,
            index,
        })
    }
}
