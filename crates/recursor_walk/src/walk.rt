//! The walk to the servers of a name: from the roots down the zone cuts, one candidate after the other; at
//! each of them what the cache has comes first (RFC 1034 section 5.3.3).
ghost use Rattle.std.specs.Prelude.{◌≡◌, ◌≤◌, ◌+◌, ◌*◌, ℕ, [], true, Err, IfOk, length};
ghost use Rattle.dns_core.specs.declared.message.Query.{Query};
ghost use Rattle.dns_core.specs.declared.request.Question.{Question};
ghost use Rattle.resolution.specs.Names.{walk};
ghost use Rattle.walk_tables.specs.Lookup.{want_of};
ghost use Rattle.walk_lookup.specs.LogView.{LogView};
ghost use Rattle.recursor_walk.specs.ZoneQuery.{LastHolds};
ghost use Rattle.recursor_walk.specs.SourcedVerdict.{ReadsAt, from_cache};
ghost use Rattle.recursor_walk.specs.Walk.{steps, Goes, Passes, Ends, EndsIf, IsOnward, Recalls, counting, verdict_found, verdict_heard, IsWalkOutcomeOf};
ghost use Rattle.recursor_walk.specs.Way.{WayHolds, WalkHolds, IsAtServers, LeavesBehind, Comes, HasFailedAt, HasHeard, HasFound, HasRoots, FiltersBy};
ghost use Rattle.walk_tables.specs.declared.lookup.QueryStep.TheVariants as want;
ghost use Rattle.recursor_walk.specs.ZoneQuery as asking;

use crate::zone_query::asking::ZoneQuery;
use crate::zone_query::sourced_verdict::{SourcedVerdict, from_cache};
use dns_core::{
    Ips, Message, Name, NetError, NoMemory, NoRecords, Numbers, Query, TryClone, in_box,
};
use recursor_types::{RecursorError, Reply, WalkCause};
use resolution::Verdict;
use resolver_cache::ResponseCache;
use resolver_settings::AccessControlSet;
use std::alloc::Global;
use walk_lookup::LookupResult;
use walk_response::{
    candidate_query, collect_glue, ends_walk, is_delegation, made_error, reply_by, told_negative,
};
use walk_tables::Lookup;

/// A walk to a name: the NS records of the candidate that has the last `labels` labels of the name are
/// looked for at the servers of the deepest zone that was found at or above the name.
#[derive(Drop)]
pub struct Walk {
    pub name: Name,
    pub labels: usize,
    pub asking: ZoneQuery,
}

/// Where a walk goes by a step: further, to the servers of its name, at which it has come, or to a reply
/// of the question that is walked for.
#[derive(Drop)]
pub enum WalkOutcome {
    Continue,
    ServersReached,
    Reply(Box<Reply>),
}

impl Walk {
    /// A walk from the roots, which no filter denies, to a name with labels.
    pub fn new(alloc: Global, name: Name, roots: Ips) -> Result<Walk, NoMemory>
        requires { 1 ≤ length name.labels }
        ensures holds { (view : LogView) (asked_at : ℕ) (q : Query) → name ≡ walk q → q.name.fqdn ≡ true → HasRoots view roots
            → IfOk result (WalkHolds view asked_at q) }
        ensures steps { IfOk result (λ w. steps w ≡ 6 + length name.labels * 8) }
    {
        let query = candidate_query(alloc, &name, 1)?;
        let asking = ZoneQuery::new(alloc, Name::root(alloc), roots, query);
        Ok(Walk {
            name,
            labels: 1,
            asking,
        })
    }

    /// Goes by what the cache has for the present candidate; where it has nothing, the servers are to be
    /// asked.
    pub fn recall(
        &mut self,
        alloc: Global,
        filter: &AccessControlSet,
        cache: &ResponseCache,
        now: u64,
    ) -> Result<WalkOutcome, NoMemory>
        requires { want_of self.old.asking.lookup.ask ≡ want.Recall }
        ensures falls { Goes self.old self.new result }
        ensures holds { (view : LogView) (asked_at : ℕ) (asked : Question) → FiltersBy view filter.now → ReadsAt view asked_at now cache.now
            → WalkHolds view asked_at asked.query self.old → Comes view asked_at asked self.new result }
        ensures ends { Recalls (from_cache cache.now self.old.asking.lookup.query now) result }
    {
        let counted = from_cache(alloc, cache, &self.asking.lookup.query, now)?;
        match counted {
            Some(counted) => self.apply_response(alloc, filter, counted),
            None => {
                self.asking.lookup.begin();
                Ok(WalkOutcome::Continue)
            }
        }
    }

    /// Hears what was told to the lookup of the present candidate.
    pub fn hear(
        &mut self,
        alloc: Global,
        filter: &AccessControlSet,
    ) -> Result<WalkOutcome, NoMemory>
        requires { want_of self.old.asking.lookup.ask ≡ want.Hear }
        ensures falls { Goes self.old self.new result }
        ensures ends { EndsIf (verdict_heard self.old) result }
        ensures holds { (view : LogView) (asked_at : ℕ) (asked : Question) → FiltersBy view filter.now
            → WalkHolds view asked_at asked.query self.old → Comes view asked_at asked self.new result }
    {
        let found = self.asking.lookup.hear();
        self.conclude(alloc, filter, found)
    }

    /// Goes by what a lookup came to.
    fn conclude(
        &mut self,
        alloc: Global,
        filter: &AccessControlSet,
        found: LookupResult,
    ) -> Result<WalkOutcome, NoMemory>
        ensures falls { Passes self.old self.new result }
        ensures ends { EndsIf (verdict_found found) result }
        ensures holds { (view : LogView) (asked_at : ℕ) (asked : Question) → FiltersBy view filter.now
            → HasFound view asked_at asked.query self.old found → Comes view asked_at asked self.new result }
    {
        match found {
            LookupResult::Told { entry, verdict } => self.hear_told(alloc, filter, entry, verdict),
            LookupResult::Error(error) => self.skip_candidate(alloc, error),
        }
    }

    /// Goes on without the candidate whose lookup failed, unless its servers stayed silent.
    fn skip_candidate(&mut self, alloc: Global, error: NetError) -> Result<WalkOutcome, NoMemory>
        ensures falls { Passes self.old self.new result }
        ensures holds { (view : LogView) (asked_at : ℕ) (asked : Question) → HasFailedAt view asked_at asked.query self.old error
            → Comes view asked_at asked self.new result }
    {
        match error {
            NetError::Timeout => self.no_server(alloc, WalkCause::Timeout),
            _ => self.next_candidate(alloc),
        }
    }

    /// Goes by a response that was told by an entry.
    fn hear_told(
        &mut self,
        alloc: Global,
        filter: &AccessControlSet,
        entry: u64,
        verdict: Result<Verdict, NetError>,
    ) -> Result<WalkOutcome, NoMemory>
        ensures falls { Passes self.old self.new result }
        ensures ends { EndsIf (counting verdict) result }
        ensures holds { (view : LogView) (asked_at : ℕ) (asked : Question) → FiltersBy view filter.now
            → HasFound view asked_at asked.query self.old (LookupResult.Told entry verdict) → Comes view asked_at asked self.new result }
    {
        match verdict {
            Ok(verdict) => self.apply_response(alloc, filter, SourcedVerdict { entry, verdict }),
            Err(_) => self.next_candidate(alloc),
        }
    }

    /// Goes by what counts for the NS question of the present candidate.
    fn apply_response(
        &mut self,
        alloc: Global,
        filter: &AccessControlSet,
        counted: SourcedVerdict,
    ) -> Result<WalkOutcome, NoMemory>
        ensures falls { Passes self.old self.new result }
        ensures ends { Ends counted.verdict result }
        ensures holds { (view : LogView) (asked_at : ℕ) (asked : Question) → FiltersBy view filter.now
            → HasHeard view asked_at asked.query self.old counted.entry counted.verdict → Comes view asked_at asked self.new result }
    {
        let SourcedVerdict { entry, verdict } = counted;
        match verdict {
            Verdict::Pos(kept) => self.descend(alloc, filter, &kept),
            Verdict::Neg(found) => self.apply_negative(alloc, entry, found),
            Verdict::Made(cause) => {
                let denial = made_error(alloc, &self.asking.lookup.query, cause)?;
                Ok(WalkOutcome::Reply(reply_by(alloc, entry, Err(denial))?))
            }
        }
    }

    /// A negative response ends the walk where it says that the name is not there.
    fn apply_negative(
        &mut self,
        alloc: Global,
        entry: u64,
        found: NoRecords,
    ) -> Result<WalkOutcome, NoMemory>
        ensures falls { Passes self.old self.new result }
        ensures ends { Ends (Verdict.Neg found) result }
        ensures holds { (view : LogView) (asked_at : ℕ) (asked : Question) → HasHeard view asked_at asked.query self.old entry (Verdict.Neg found)
            → Comes view asked_at asked self.new result }
    {
        if ends_walk(&found) {
            let reply = reply_by(alloc, entry, Err(told_negative(found)))?;
            return Ok(WalkOutcome::Reply(reply));
        }
        self.next_candidate(alloc)
    }

    /// Takes the zone cut of a response, where it has one.
    fn descend(
        &mut self,
        alloc: Global,
        filter: &AccessControlSet,
        kept: &Message,
    ) -> Result<WalkOutcome, NoMemory>
        ensures falls { Passes self.old self.new result }
        ensures holds { (view : LogView) (asked_at entry : ℕ) (asked : Question) → FiltersBy view filter.now
            → HasHeard view asked_at asked.query self.old entry (Verdict.Pos kept.now) → Comes view asked_at asked self.new result }
    {
        if !is_delegation(kept, &self.asking.lookup.query.name) {
            return self.next_candidate(alloc);
        }
        let ips = collect_glue(alloc, kept, &self.asking.lookup.query.name, filter)?;
        if ips.is_empty() {
            return self.no_server(alloc, WalkCause::NoAddress);
        }
        self.asking.zone = self.asking.lookup.query.name.try_clone(alloc)?;
        self.asking.servers = Ips::new(ips);
        self.next_candidate(alloc)
    }

    /// Goes on to the next candidate, at the present servers; after the last one these are the servers of
    /// the name.
    fn next_candidate(&mut self, alloc: Global) -> Result<WalkOutcome, NoMemory>
        ensures falls { Passes self.old self.new result }
        ensures none { IfOk result IsOnward }
        ensures holds { (view : LogView) (asked_at : ℕ) (asked : Question) → WayHolds view asked.query self.old → LeavesBehind view self.old
            → Comes view asked_at asked self.new result }
    {
        if self.labels >= self.name.labels().len() {
            return Ok(WalkOutcome::ServersReached);
        }
        let labels = self.labels + 1;
        let query = candidate_query(alloc, &self.name, labels)?;
        self.labels = labels;
        self.asking.lookup = Lookup::new(alloc, query);
        Ok(WalkOutcome::Continue)
    }

    fn no_server(&self, alloc: Global, cause: WalkCause) -> Result<WalkOutcome, NoMemory>
        ensures { IfOk result (IsWalkOutcomeOf (record { outcome = Err (RecursorError.NoNameServer self.now.name cause); grounds = [] })) }
    {
        let zone = self.name.try_clone(alloc)?;
        let reply = Reply {
            outcome: Err(RecursorError::NoNameServer { zone, cause }),
            grounds: Numbers::empty(alloc),
        };
        Ok(WalkOutcome::Reply(in_box(alloc, reply)?))
    }

    /// The question itself at the servers of the name, at which the walk has come.
    pub fn into_asking(self, alloc: Global, query: Query) -> ZoneQuery
        ensures steps { asking.steps result ≡ 6 }
        ensures holds { (view : LogView) (asked_at : ℕ) → IsAtServers view query self → LastHolds view asked_at query result }
    {
        let Walk {
            name: _,
            labels: _,
            asking,
        } = self;
        let ZoneQuery {
            zone,
            servers,
            lookup: _,
        } = asking;
        ZoneQuery::new(alloc, zone, servers, query)
    }
}
