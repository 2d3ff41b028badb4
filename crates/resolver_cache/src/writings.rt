//! The entries in the order in which they were written, and which of them expires first.
ghost use Rattle.std.specs.Prelude.{◌≡◌, ◌<◌, ◌^◌, ℕ, [], ◌∷◌, ◌++◌, length, Some, cond, IfSome, OnOk, OnErr};
ghost use Rattle.std.specs.Option.{option_copied};
ghost use Rattle.std.specs.BTreeMap.{is_at};
ghost use Rattle.std.specs.List.Sorted.{IsStrictlySortedBy};
ghost use Rattle.std.specs.Map.{keys_of, remove_entry};
ghost use Rattle.std.specs.Ordering.{nat_cmp};
ghost use Rattle.resolver_cache.specs.Writings.{under, number_of_least, least_of_full, AreBelow, AreKept};

use dns_core::NoMemory;
use kept_responses::KeptEntry;
use std::alloc::Global;
use std::collections::{BTreeMap, BTreeSet};
use std::marker::Model;

/// The entries under rising numbers, and their expiries in order, each with the number of its entry.
#[derive(Drop, Debug)]
pub(crate) struct Writings {
    written: BTreeMap<u64, KeptEntry>,
    expiries: BTreeSet<(u64, u64)>,
}

impl Model for Writings {
    ghost use Rattle.std.specs.Prelude.{List, ℕ};
    ghost use Rattle.kept_responses.specs.declared.entry.Entry.{Entry as Seen};

    ghost Value = { List (ℕ × Seen) };

    ghost use Rattle.resolver_cache.specs.Writings.{AreKept};

    ghost view = { λ a. a.written.entries };

    ghost invariant = { λ a. AreKept a.written.entries a.expiries };
}

fn add_entry(
    written: &mut BTreeMap<u64, KeptEntry>,
    number: u64,
    entry: KeptEntry,
) -> Result<(), NoMemory>
    requires { AreBelow number written.old.entries }
    ensures ok { OnOk result (written.new.entries ≡ written.old.entries ++ (number, entry) ∷ []) }
    ensures updates { OnOk result ((k : ℕ) → under k written.new.entries ≡ cond (is_at (nat_cmp number) k) (Some entry) (under k written.old.entries)) }
    ensures err { OnErr result (written.new.entries ≡ written.old.entries) }
    ensures rising { IsStrictlySortedBy nat_cmp (keys_of written.new.entries) }
{
    let _none = written.insert(number, entry)?;
    Ok(())
}

/// Adds an entry under a number above the others. The room for its expiry is taken first, and given
/// back where there is none for the entry.
fn add_at(
    written: &mut BTreeMap<u64, KeptEntry>,
    expiries: &mut BTreeSet<(u64, u64)>,
    number: u64,
    entry: KeptEntry,
) -> Result<(), NoMemory>
    requires above { AreBelow number written.old.entries }
    requires kept { AreKept written.old.entries expiries.old }
    ensures ok { OnOk result (written.new.entries ≡ written.old.entries ++ (number, entry) ∷ []) }
    ensures err { OnErr result (written.new.entries ≡ written.old.entries) }
    ensures kept { AreKept written.new.entries expiries.new }
{
    let expiry = entry.expiry();
    let _new = expiries.insert((expiry, number))?;
    match add_entry(written, number, entry) {
        Ok(()) => Ok(()),
        Err(NoMemory) => {
            let _there = expiries.remove(&(expiry, number));
            Err(NoMemory)
        }
    }
}

/// Takes the entry of a number out, with its expiry.
fn take_at(
    written: &mut BTreeMap<u64, KeptEntry>,
    expiries: &mut BTreeSet<(u64, u64)>,
    number: u64,
) -> Option<KeptEntry>
    requires { AreKept written.old.entries expiries.old }
    ensures gone { result ≡ under number written.old.entries }
    ensures left { written.new.entries ≡ remove_entry (is_at (nat_cmp number)) written.old.entries }
    ensures kept { AreKept written.new.entries expiries.new }
{
    match written.remove(&number) {
        Some(gone) => {
            let _there = expiries.remove(&(gone.expiry(), number));
            Some(gone)
        }
        None => None,
    }
}

/// The number of the entry that expires first.
fn least_at(written: &BTreeMap<u64, KeptEntry>, expiries: &BTreeSet<(u64, u64)>) -> Option<u64>
    requires { AreKept written.now.entries expiries.now }
    ensures { result ≡ number_of_least written.now.entries }
{
    match expiries.first() {
        Some((_, number)) => Some(*number),
        None => None,
    }
}

/// The number after the last one.
fn next_at(written: &BTreeMap<u64, KeptEntry>) -> Option<u64>
    ensures { IfSome result (λ n. AreBelow n written.now.entries) }
{
    match written.last_key_value() {
        Some((last, _)) => last.checked_add(1),
        None => Some(0),
    }
}

impl Writings {
    pub(crate) fn new(alloc: Global) -> Self
        ensures { result ≡ [] }
    {
        Writings {
            written: BTreeMap::new(alloc),
            expiries: BTreeSet::new(alloc),
        }
    }

    /// The entries under their numbers.
    pub(crate) fn written(&self) -> &BTreeMap<u64, KeptEntry>
        ensures { result.now.entries ≡ self.now }
    {
        &self.written
    }

    pub(crate) fn len(&self) -> usize
        ensures len { result ≡ length self.now }
        ensures small { result < 2 ^ 63 }
    {
        self.written.len()
    }

    /// The entry of a number.
    pub(crate) fn get(&self, number: u64) -> Option<&KeptEntry>
        ensures entry { option_copied result ≡ under number self.now }
        ensures rising { IsStrictlySortedBy nat_cmp (keys_of self.now) }
    {
        self.written.get(&number)
    }

    /// A number above those of all entries, none where the last one has the greatest.
    pub(crate) fn next_number(&self) -> Option<u64>
        ensures { IfSome result (λ n. AreBelow n self.now) }
    {
        next_at(&self.written)
    }

    /// The number of the entry with the least expiry, of the oldest written of these.
    pub(crate) fn number_of_least(&self) -> Option<u64>
        ensures { result ≡ number_of_least self.now }
    {
        least_at(&self.written, &self.expiries)
    }

    /// The same where there are as many entries as the size, and none where there are fewer.
    pub(crate) fn least_of_full(&self, size: u64) -> Option<u64>
        ensures { result ≡ least_of_full size (length self.now) self.now }
    {
        if (self.len() as u64) < size {
            None
        } else {
            self.number_of_least()
        }
    }

    /// Adds an entry under a number above the others.
    pub(crate) fn add(&mut self, number: u64, entry: KeptEntry) -> Result<(), NoMemory>
        requires { AreBelow number self.old }
        ensures ok { OnOk result (self.new ≡ self.old ++ (number, entry) ∷ []) }
        ensures err { OnErr result (self.new ≡ self.old) }
        ensures rising { IsStrictlySortedBy nat_cmp (keys_of self.old) }
    {
        add_at(&mut self.written, &mut self.expiries, number, entry)
    }

    /// Takes the entry of a number out.
    pub(crate) fn take(&mut self, number: u64) -> Option<KeptEntry>
        ensures gone { result ≡ under number self.old }
        ensures left { self.new ≡ remove_entry (is_at (nat_cmp number)) self.old }
    {
        take_at(&mut self.written, &mut self.expiries, number)
    }
}
