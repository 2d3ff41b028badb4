//! The entries in the order in which they were written, found by their questions.
ghost use Rattle.std.specs.Prelude.{◌≡◌, ◌<◌, ℕ, [], ◌∷◌, ◌++◌, length, find, cond, Some, None, IfOk, OnOk, OnErr};
ghost use Rattle.std.specs.List.{list_any};
ghost use Rattle.std.specs.Option.{option_copied};
ghost use Rattle.std.specs.BTreeMap.{is_at};
ghost use Rattle.std.specs.List.Sorted.{IsStrictlySortedBy};
ghost use Rattle.std.specs.Map.{keys_of, values_of, remove_entry};
ghost use Rattle.std.specs.Ordering.{nat_cmp};
ghost use Rattle.dns_core.specs.declared.message.Query.{Query as Question};
ghost use Rattle.kept_responses.specs.Entry.{is_for, is_same_question, current_for};
ghost use Rattle.resolver_cache.specs.Cached.{IsWithin};
ghost use Rattle.resolver_cache.specs.Placing.{with_entry};
ghost use Rattle.resolver_cache.specs.Writings.{number_of, AreBelow};
ghost use Rattle.resolver_cache.specs.Index.{number_at, ArePlaced, AreSingle};

use crate::writings::Writings;
use dns_core::{NoMemory, Query, TryClone};
use kept_responses::KeptEntry;
use std::alloc::Global;
use std::collections::BTreeMap;

/// The entries under rising numbers, and the number of each under its question.
#[derive(Drop, Debug)]
pub(crate) struct Index {
    pub(crate) writings: Writings,
    pub(crate) places: BTreeMap<Query, u64>,
}

/// Puts a number under a question, in place of the one that was there.
fn place(places: &mut BTreeMap<Query, u64>, query: Query, number: u64) -> Result<(), NoMemory>
    ensures ok { OnOk result ((q : Question) → number_at places.new q ≡ cond (is_same_question query q) (Some number) (number_at places.old q)) }
    ensures err { OnErr result ((q : Question) → number_at places.new q ≡ number_at places.old q) }
{
    let _before = places.insert(query, number)?;
    Ok(())
}

/// Takes away the number under a question.
fn displace(places: &mut BTreeMap<Query, u64>, query: &Query)
    ensures { (q : Question) → number_at places.new q ≡ cond (is_same_question query.now q) None (number_at places.old q) }
{
    let _number = places.remove(query);
}

/// Takes the entry of a number out and lets go of it.
fn drop_entry(writings: &mut Writings, number: u64)
    ensures { writings.new ≡ remove_entry (is_at (nat_cmp number)) writings.old }
{
    let _gone = writings.take(number);
}

impl Index {
    pub(crate) fn new(alloc: Global) -> Self
        ensures empty { result.writings ≡ [] }
        ensures placed { ArePlaced result.writings result.places }
    {
        Index {
            writings: Writings::new(alloc),
            places: BTreeMap::new(alloc),
        }
    }

    /// The number of the entry for a question.
    fn number_for(&self, query: &Query) -> Option<u64>
        requires { ArePlaced self.now.writings self.now.places }
        ensures { result ≡ number_of (is_for query.now) self.now.writings }
    {
        match self.places.get(query) {
            Some(number) => Some(*number),
            None => None,
        }
    }

    /// The entry for a question.
    pub(crate) fn entry_for(&self, query: &Query) -> Option<&KeptEntry>
        requires { ArePlaced self.now.writings self.now.places }
        ensures { option_copied result ≡ find (is_for query.now) (values_of self.now.writings) }
    {
        match self.places.get(query) {
            Some(number) => self.writings.get(*number),
            None => None,
        }
    }

    /// The entry for a question, where it is current.
    pub(crate) fn current_for(&self, query: &Query, now: u64) -> Option<&KeptEntry>
        requires { ArePlaced self.now.writings self.now.places }
        ensures { option_copied result ≡ current_for query.now now (values_of self.now.writings) }
    {
        let found = self.entry_for(query)?;
        if now <= found.expiry() {
            Some(found)
        } else {
            None
        }
    }

    pub(crate) fn len(&self) -> usize
        ensures { result ≡ length (values_of self.now.writings) }
    {
        self.writings.len()
    }

    /// Whether there is an entry for a question.
    pub(crate) fn has(&self, query: &Query) -> bool
        requires { ArePlaced self.now.writings self.now.places }
        ensures { result ≡ list_any (is_for query.now) (values_of self.now.writings) }
    {
        self.places.contains_key(query)
    }

    /// Adds an entry, and its number under its question.
    fn add(&mut self, number: u64, key: Query, entry: KeptEntry) -> Result<(), NoMemory>
        requires { AreBelow number self.old.writings }
        ensures ok { OnOk result (self.new.writings ≡ self.old.writings ++ (number, entry) ∷ []) }
        ensures places { OnOk result ((q : Question) → number_at self.new.places q ≡ cond (is_same_question key q) (Some number) (number_at self.old.places q)) }
        ensures err { OnErr result (self.new.writings ≡ self.old.writings) }
        ensures stay { OnErr result ((q : Question) → number_at self.new.places q ≡ number_at self.old.places q) }
        ensures rising { IsStrictlySortedBy nat_cmp (keys_of self.old.writings) }
    {
        self.writings.add(number, entry)?;
        match place(&mut self.places, key, number) {
            Ok(()) => Ok(()),
            Err(NoMemory) => {
                drop_entry(&mut self.writings, number);
                Err(NoMemory)
            }
        }
    }

    /// Lets the entry of a number give way, with what stands under its question.
    fn let_go(&mut self, number: u64)
        requires placed { ArePlaced self.old.writings self.old.places }
        requires single { AreSingle self.old.writings }
        ensures left { self.new.writings ≡ remove_entry (is_at (nat_cmp number)) self.old.writings }
        ensures placed { ArePlaced self.new.writings self.new.places }
    {
        match self.writings.take(number) {
            Some(gone) => displace(&mut self.places, gone.query()),
            None => {}
        }
    }

    /// Writes an entry in the place of the one for its question.
    fn put_over(
        &mut self,
        before: u64,
        number: u64,
        key: Query,
        entry: KeptEntry,
    ) -> Result<(), NoMemory>
        requires own { number_of (is_for entry.query) self.old.writings ≡ Some before }
        requires above { AreBelow number self.old.writings }
        requires key { key ≡ entry.query }
        requires placed { ArePlaced self.old.writings self.old.places }
        requires single { AreSingle self.old.writings }
        ensures rising { IsStrictlySortedBy nat_cmp (keys_of self.old.writings) }
        ensures ok { OnOk result (self.new.writings ≡ remove_entry (is_at (nat_cmp before)) self.old.writings ++ (number, entry) ∷ []) }
        ensures err { OnErr result (self.new.writings ≡ self.old.writings) }
        ensures placed { ArePlaced self.new.writings self.new.places }
    {
        self.add(number, key, entry)?;
        drop_entry(&mut self.writings, before);
        Ok(())
    }

    /// Writes an entry for a question that has none, in the place of the one that expires first
    /// where there are as many as the size.
    fn put_new(
        &mut self,
        size: u64,
        number: u64,
        key: Query,
        entry: KeptEntry,
    ) -> Result<(), NoMemory>
        requires new { number_of (is_for entry.query) self.old.writings ≡ None }
        requires above { AreBelow number self.old.writings }
        requires key { key ≡ entry.query }
        requires placed { ArePlaced self.old.writings self.old.places }
        requires within { IsWithin size (values_of self.old.writings) }
        requires some { 0 < size }
        ensures ok { OnOk result (values_of self.new.writings ≡ with_entry size entry (values_of self.old.writings)) }
        ensures err { OnErr result (self.new.writings ≡ self.old.writings) }
        ensures placed { ArePlaced self.new.writings self.new.places }
    {
        let least = self.writings.least_of_full(size);
        self.add(number, key, entry)?;
        match least {
            Some(least) => {
                self.let_go(least);
                Ok(())
            }
            None => Ok(()),
        }
    }

    /// Writes an entry behind the others under a number above theirs. The room for it is taken before
    /// another gives way, so that nothing changes where there is none.
    fn put_under(
        &mut self,
        alloc: Global,
        size: u64,
        number: u64,
        entry: KeptEntry,
    ) -> Result<(), NoMemory>
        requires above { AreBelow number self.old.writings }
        requires placed { ArePlaced self.old.writings self.old.places }
        requires within { IsWithin size (values_of self.old.writings) }
        requires some { 0 < size }
        ensures ok { OnOk result (values_of self.new.writings ≡ with_entry size entry (values_of self.old.writings)) }
        ensures err { OnErr result (self.new.writings ≡ self.old.writings) }
        ensures placed { ArePlaced self.new.writings self.new.places }
    {
        let key = entry.query().try_clone(alloc)?;
        match self.number_for(entry.query()) {
            Some(before) => {
                self.put_over(before, number, key, entry)?;
                Ok(())
            }
            None => self.put_new(size, number, key, entry),
        }
    }

    /// Adds a copy of an entry for a question that has none.
    fn add_copy(&mut self, alloc: Global, number: u64, entry: &KeptEntry) -> Result<(), NoMemory>
        requires new { number_of (is_for entry.now.query) self.old.writings ≡ None }
        requires above { AreBelow number self.old.writings }
        requires placed { ArePlaced self.old.writings self.old.places }
        ensures ok { OnOk result (self.new.writings ≡ self.old.writings ++ (number, entry.now) ∷ []) }
        ensures placed { OnOk result (ArePlaced self.new.writings self.new.places) }
    {
        let copy = entry.try_clone(alloc)?;
        let key = copy.query().try_clone(alloc)?;
        self.add(number, key, copy)?;
        Ok(())
    }

    /// A copy under the numbers from 0 on, with the number behind them.
    pub(crate) fn renumbered(&self, alloc: Global) -> Result<(Index, u64), NoMemory>
        requires { AreSingle self.now.writings }
        ensures same { IfOk result (λ r. values_of r.0.writings ≡ values_of self.now.writings) }
        ensures placed { IfOk result (λ r. ArePlaced r.0.writings r.0.places) }
        ensures above { IfOk result (λ r. AreBelow r.1 r.0.writings) }
    {
        let mut copy = Index::new(alloc);
        let mut number = 0;
        let written = self.writings.written();
        for entry in written.values() {
            copy.add_copy(alloc, number, entry)?;
            number += 1;
        }
        Ok((copy, number))
    }

    /// `put_under` where the numbers have come to their end: they begin again from 0, in a copy that
    /// takes the place of this index once the entry is in it.
    fn put_renumbered(&mut self, alloc: Global, size: u64, entry: KeptEntry) -> Result<(), NoMemory>
        requires placed { ArePlaced self.old.writings self.old.places }
        requires within { IsWithin size (values_of self.old.writings) }
        requires some { 0 < size }
        ensures ok { OnOk result (values_of self.new.writings ≡ with_entry size entry (values_of self.old.writings)) }
        ensures err { OnErr result (self.new.writings ≡ self.old.writings) }
        ensures placed { ArePlaced self.new.writings self.new.places }
    {
        let (mut copy, number) = self.renumbered(alloc)?;
        copy.put_under(alloc, size, number, entry)?;
        *self = copy;
        Ok(())
    }

    /// Writes an entry behind the others. A cache of size 0 keeps nothing.
    pub(crate) fn put(&mut self, alloc: Global, size: u64, entry: KeptEntry) -> Result<(), NoMemory>
        requires placed { ArePlaced self.old.writings self.old.places }
        requires within { IsWithin size (values_of self.old.writings) }
        ensures ok { OnOk result (values_of self.new.writings ≡ with_entry size entry (values_of self.old.writings)) }
        ensures err { OnErr result (values_of self.new.writings ≡ values_of self.old.writings) }
        ensures placed { ArePlaced self.new.writings self.new.places }
    {
        if size == 0 {
            return Ok(());
        }
        match self.writings.next_number() {
            Some(number) => self.put_under(alloc, size, number, entry),
            None => self.put_renumbered(alloc, size, entry),
        }
    }
}
