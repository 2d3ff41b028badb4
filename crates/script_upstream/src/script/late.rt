//! Entries that found no memory in the log, and wait for it.
ghost use Rattle.std.specs.Prelude.{◌≡◌, ◌↔◌, [], ◌∷◌, ◌++◌, IsTrue, IfOk, OnOk, IfSome, OnSome, IfNone, reverse};

use dns_core::{Items, Log, LogEntry, NoMemory};
use std::alloc::Global;
use std::marker::Model;
use std::mem;

/// Entries, the newest first, each in room of its own.
pub enum Chain {
    End,
    Entry(LogEntry, Box<Chain>),
}

impl Drop for Chain {
    fn drop(mut self) {
        'dropping: loop {
            match self {
                Chain::End => return,
                Chain::Entry(entry, rest) => {
                    drop(entry);
                    self = Box::into_inner(rest);
                }
            }
        }
    }
}

impl Chain {
    ghost use Rattle.script_upstream.specs.Late.{chained};

    /// The entries in the other order, in the same room.
    fn reversed(mut self) -> Chain
        ensures { chained result ≡ reverse (chained self) }
    {
        let mut turned = Chain::End;
        'turning: loop {
            match self {
                Chain::End => return turned,
                Chain::Entry(entry, mut rest) => {
                    self = mem::replace(&mut *rest, turned);
                    turned = Chain::Entry(entry, rest);
                }
            }
        }
    }

    /// Moves entries to the end of the log, the first one first, and answers those that find no
    /// memory.
    fn pour(mut self, alloc: Global, log: &mut Log) -> Chain
        ensures { log.new ++ chained result ≡ log.old ++ chained self }
    {
        'pouring: loop {
            match self {
                Chain::End => return Chain::End,
                Chain::Entry(entry, rest) => match push_or_back(log, alloc, entry) {
                    None => self = Box::into_inner(rest),
                    Some(entry) => return Chain::Entry(entry, rest),
                },
            }
        }
    }
}

/// Room for one entry.
#[derive(Drop)]
pub struct Room {
    room: Box<Chain>,
}

impl Room {
    ghost use Rattle.script_upstream.specs.Late.{chained};

    /// Room that no entry has taken yet.
    pub fn new(alloc: Global) -> Result<Room, NoMemory>
        ensures { IfOk result (λ room. chained room.room.value ≡ []) }
    {
        let room = Box::new(alloc, Chain::End)?;
        Ok(Room { room })
    }
}

/// Entries that wait for memory, which contracts see as a list, the oldest first.
pub struct UnrecordedEntries {
    chain: Chain,
}

impl Drop for UnrecordedEntries {
    fn drop(self) {
        let UnrecordedEntries { chain: _ } = self;
    }
}

impl Model for UnrecordedEntries {
    ghost use Rattle.std.specs.Prelude.{List, reverse};
    ghost use Rattle.dns_core.specs.declared.log.LogEntry.{LogEntry};
    ghost use Rattle.script_upstream.specs.Late.{chained};

    ghost Value = { List LogEntry };

    ghost view = { λ a. reverse (chained a.chain) };
}

impl UnrecordedEntries {
    pub fn new() -> UnrecordedEntries
        ensures { result ≡ [] }
    {
        UnrecordedEntries { chain: Chain::End }
    }

    /// Adds an entry in the room that it brings.
    pub fn put(&mut self, room: Room, entry: LogEntry)
        ensures { self.new ≡ self.old ++ entry ∷ [] }
    {
        let Room { mut room } = room;
        let older = mem::replace(&mut self.chain, Chain::End);
        drop(mem::replace(&mut *room, older));
        drop(mem::replace(&mut self.chain, Chain::Entry(entry, room)));
    }

    /// Moves the entries to the end of the log, as many as find memory, the oldest first.
    pub fn pour(&mut self, alloc: Global, log: &mut Log) -> Result<(), NoMemory>
        ensures same { log.new ++ self.new ≡ log.old ++ self.old }
        ensures ok { OnOk result (self.new ≡ []) }
    {
        if matches!(&self.chain, Chain::End) {
            return Ok(());
        }
        let newest_first = mem::replace(&mut self.chain, Chain::End);
        let rest = newest_first.reversed().pour(alloc, log);
        let is_done = matches!(&rest, Chain::End);
        self.chain = rest.reversed();
        if is_done { Ok(()) } else { Err(NoMemory) }
    }
}

/// Adds an entry to the log, or gives it back where it finds no memory.
pub fn push_or_back(log: &mut Log, alloc: Global, entry: LogEntry) -> Option<LogEntry>
    ensures pushed { IfNone result (log.new ≡ log.old ++ entry ∷ []) }
    ensures full { OnSome result (log.new ≡ log.old) }
    ensures back { IfSome result (λ same. same ≡ entry) }
{
    let mut entries = mem::replace(log, Items::empty(alloc)).into_vec();
    let refused = entries.push(entry);
    *log = Items::new(entries);
    match refused {
        Ok(()) => None,
        Err(failed) => Some(failed.value),
    }
}
