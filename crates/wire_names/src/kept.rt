//! What is kept of a message that is read: names, of which one that is only a pointer to them is a copy, and where its
//! pointers lead, once a name goes through many.
ghost use Rattle.std.specs.Prelude.{◌≡◌, ◌≢◌, [], ℕ, List, All, length, min, MatchOption, IfOk, OnOk};
ghost use Rattle.wire_names.specs.Kept.{IsReadAt, IsEndOf, AreKept, Keeps};

use crate::ends::ends_of;
use dns_core::{Name, NoMemory, TryClone};
use std::alloc::{AllocError, Global};
use std::marker::Model;

/// A name, and the place of the message where it stands.
#[derive(Drop, Debug)]
pub struct KeptName {
    pub place: usize,
    pub name: Name,
}

/// The four names that were read last, and the ends of the first places of the message, or none.
#[derive(Drop, Debug)]
pub struct KeptNames {
    names: Vec<KeptName>,
    oldest: usize,
    ends: Vec<u16>,
}

impl Model for KeptNames {
    ghost use Rattle.wire_names.specs.Kept.{Kept};

    ghost Value = { Kept };

    ghost view = { λ a. record { names = a.names.items; ends = a.ends.items } };

    ghost use Rattle.std.specs.Prelude.{◌<◌};

    ghost invariant = { λ a. a.oldest < 4 };
}

impl KeptNames {
    pub fn new(alloc: Global) -> Result<KeptNames, AllocError>
        ensures { IfOk result (λ kept. (message : List ℕ) → AreKept message kept) }
    {
        Ok(KeptNames {
            names: Vec::with_capacity(alloc, 4)?,
            oldest: 0,
            ends: Vec::new(alloc),
        })
    }

    /// The name that was read at a place, if it is among these.
    pub fn at(&self, place: usize) -> Option<&Name>
        ensures { MatchOption result (All (λ kept. kept.place ≢ place) self.now.names) (λ name. (message : List ℕ) → AreKept message self.now → IsReadAt message place name.now) }
    {
        for kept in &self.names {
            if kept.place == place {
                return Some(&kept.name);
            }
        }
        None
    }

    /// Keeps a name that was read at a place, and lets go the oldest.
    pub fn keep(&mut self, alloc: Global, place: usize, name: &Name) -> Result<(), NoMemory>
        ensures keeps { OnOk result (Keeps self.old place name.now self.new) }
        ensures kept { (message : List ℕ) → AreKept message self.old → IsReadAt message place name.now → AreKept message self.new }
    {
        let name = name.try_clone(alloc)?;
        let kept = KeptName { place, name };
        if self.names.len() < 4 {
            self.names.push(kept)?;
            return Ok(());
        }
        self.names[self.oldest] = kept;
        self.oldest = (self.oldest + 1) % 4;
        Ok(())
    }

    /// Keeps the ends of the places of the message, if none are kept.
    pub fn keep_ends(&mut self, alloc: Global, message: &[u8]) -> Result<(), AllocError>
        ensures names { self.new.names ≡ self.old.names }
        ensures ends { OnOk result (self.old.ends ≡ [] → length self.new.ends ≡ min (length message.now) 16384) }
        ensures kept { AreKept message.now self.old → AreKept message.now self.new }
    {
        if self.ends.is_empty() {
            self.ends = ends_of(alloc, message)?;
        }
        Ok(())
    }

    /// The end of a place, or the place where none is kept.
    pub fn end_of(&self, place: usize) -> usize
        ensures { (message : List ℕ) → AreKept message self.now → IsEndOf message place result }
    {
        match self.ends.get(place) {
            Some(end) => *end as usize,
            None => place,
        }
    }
}
