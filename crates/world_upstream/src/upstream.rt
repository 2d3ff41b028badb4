//! A world as an upstream.
ghost use Rattle.std.specs.Prelude.{◌≡◌, ◌+◌, [], ◌++◌, None, length, IfOk, OnOk, OnErr, IsTrue};
ghost use Rattle.dns_core.specs.Faults.{Rose};
ghost use Rattle.dns_core.specs.declared.log.ToldOutcome.TheVariants.{Connected};
ghost use Rattle.dns_core.specs.declared.log.LogEntry.TheVariants.{Opened, Asked, Told, GaveUp};

use crate::book::WorldLog;
use dns_core::{Log, LogEntry, Message, NoMemory, Poll, Query, TryClone};
use script_upstream::{Endpoint, Room};
use std::alloc::Global;
use std::marker::Model;
use zone_worlds::{IndexedWorld, World};

/// An upstream that answers as its world does. Contracts see the world, the log with the entries that
/// wait for memory, and how many polls found nothing yet.
pub struct WorldUpstream {
    pub(crate) alloc: Global,
    pub(crate) book: WorldLog,
    pub(crate) pendings: u64,
}

impl Drop for WorldUpstream {
    fn drop(self) {
        let WorldUpstream {
            alloc: _,
            book: _,
            pendings: _,
        } = self;
    }
}

impl Model for WorldUpstream {
    ghost use Rattle.world_upstream.specs.Upstream.{Upstream};
    ghost use Rattle.world_upstream.specs.Book.{Holds};

    ghost Value = { Upstream };

    ghost view = { λ a. record { world = a.book.world; noted = a.book.log; late = a.book.late; pendings = a.pendings } };

    ghost invariant = { λ a. Holds a.book };
}

impl WorldUpstream {
    ghost use Rattle.world_upstream.specs.Upstream.{told_by, Notes, NotesNothing, Polls};
    ghost use Rattle.world_upstream.specs.Giving.{Gives};
    ghost use Rattle.world_upstream.specs.Qualified.{is_qualified_world};

    /// An upstream of a world, with an empty log. Its index of the world wants memory.
    pub fn new(alloc: Global, world: World) -> Result<Self, NoMemory>
        requires { IsTrue (is_qualified_world world) }
        ensures { IfOk result (λ u. u ≡ record { world = world; noted = []; late = []; pendings = 0 }) }
    {
        let world = IndexedWorld::new(alloc, world)?;
        Ok(WorldUpstream {
            alloc,
            book: WorldLog::new(alloc, world),
            pendings: 0,
        })
    }

    /// The log, without the give-ups that wait for memory, which `gather` brings in.
    pub fn log(&self) -> &Log
        ensures log { result.now ≡ self.now.noted }
        ensures told { told_by self.now ≡ result.now ++ self.now.late }
        ensures gives { Gives self.now.world (told_by self.now) }
    {
        &self.book.log
    }

    /// Brings the give-ups that wait for memory into the log that `log` lends.
    pub fn gather(&mut self) -> Result<(), NoMemory>
        ensures told { told_by self.new ≡ told_by self.old }
        ensures same { self.new ≡ record self.old { noted = self.new.noted; late = self.new.late } }
        ensures ok { OnOk result (self.new.late ≡ []) }
    {
        self.book.gather(self.alloc)
    }

    pub(crate) fn note_open(&mut self, endpoint: Endpoint, now: u64) -> Result<u64, NoMemory>
        ensures number { IfOk result (λ n. n ≡ length (told_by self.old) + 1) }
        ensures ok { OnOk result (Notes self.old self.new (Opened endpoint.ip endpoint.protocol now None)) }
        ensures err { OnErr result (NotesNothing self.old self.new) }
    {
        let entry = LogEntry::Opened {
            ip: endpoint.ip,
            protocol: endpoint.protocol,
            moment: now,
            refused: None,
        };
        self.book.begin(self.alloc, entry, 0)
    }

    pub(crate) fn note_ask(
        &mut self,
        endpoint: Endpoint,
        query: &Query,
        now: u64,
    ) -> Result<u64, NoMemory>
        ensures number { IfOk result (λ n. n ≡ length (told_by self.old) + 1) }
        ensures ok { OnOk result (Notes self.old self.new (Asked endpoint.ip endpoint.protocol query.now now None)) }
        ensures err { OnErr result (NotesNothing self.old self.new) }
    {
        let query = query.try_clone(self.alloc)?;
        let polls = self.book.world.world().delay;
        let entry = LogEntry::Asked {
            ip: endpoint.ip,
            protocol: endpoint.protocol,
            query,
            moment: now,
            refused: None,
        };
        self.book.begin(self.alloc, entry, polls)
    }

    pub(crate) fn note_give_up(&mut self, room: Room, number: u64, now: u64)
        ensures { Notes self.old self.new (GaveUp number now) }
    {
        self.book.give_up(self.alloc, room, number, now);
    }

    /// Polls a connection, which is connected.
    pub(crate) fn poll_open(&mut self, number: u64, now: u64) -> Result<(), NoMemory>
        ensures ok { OnOk result (Notes self.old self.new (Told number now Connected)) }
        ensures err { OnErr result (NotesNothing self.old self.new) }
    {
        self.book.connect(self.alloc, number, now)
    }

    /// Polls a question, and notes what it finds.
    pub(crate) fn poll_ask(
        &mut self,
        number: u64,
        query: &Query,
        now: u64,
    ) -> Poll<Result<Message, NoMemory>>
        ensures { Polls query.now self.old self.new number now result }
    {
        match self.book.polls_left(number) {
            None => Poll::Ready(Err(NoMemory)),
            Some(0) => Poll::Ready(self.book.answer(self.alloc, number, query, now)),
            Some(_) => match self.book.wait(self.alloc, number) {
                Ok(()) => Poll::Pending,
                Err(error) => Poll::Ready(Err(error)),
            },
        }
    }

    /// Counts a poll that found nothing yet.
    pub(crate) fn count_pending(&mut self)
        ensures pendings { Rose self.old.pendings self.new.pendings }
        ensures same { self.new ≡ record self.old { pendings = self.new.pendings } }
    {
        self.pendings = self.pendings.saturating_add(1);
    }
}
