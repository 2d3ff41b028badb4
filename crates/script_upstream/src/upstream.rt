//! A script as an upstream.
ghost use Rattle.std.specs.Prelude.{◌≡◌, ◌+◌, [], Some, None, is_some, length, IfOk, OnOk, OnErr, IsTrue, ◌++◌};
ghost use Rattle.dns_core.specs.Faults.{Rose};
ghost use Rattle.dns_core.specs.declared.net_error.NetError.TheVariants.{Io};
ghost use Rattle.dns_core.specs.declared.net_error.IoKind.TheVariants.{Refused};
ghost use Rattle.dns_core.specs.declared.log.LogEntry.TheVariants.{Opened, Asked, GaveUp};

use crate::books::book::ScriptLog;
use crate::courses::course::Stage;
use crate::courses::index::Endpoint;
use crate::script::late::Room;
use crate::script::script::Script;
use dns_core::{Log, NoMemory, Poll, Query, ToldOutcome};
use std::alloc::Global;
use std::marker::Model;

/// An upstream that answers as its script says. Contracts see the script, the log with the entries
/// that wait for memory, and how many calls failed and how many polls found nothing yet.
pub struct ScriptUpstream {
    pub(crate) alloc: Global,
    pub(crate) book: ScriptLog,
    pub(crate) faults: u64,
    pub(crate) pendings: u64,
}

impl Drop for ScriptUpstream {
    fn drop(self) {
        let ScriptUpstream {
            alloc: _,
            book: _,
            faults: _,
            pendings: _,
        } = self;
    }
}

impl Model for ScriptUpstream {
    ghost use Rattle.script_upstream.specs.Upstream.{Upstream};
    ghost use Rattle.script_upstream.specs.Book.{Holds};

    ghost Value = { Upstream };

    ghost view = { λ a. record { script = a.book.script; noted = a.book.log; late = a.book.late; faults = a.faults; pendings = a.pendings } };

    ghost invariant = { λ a. Holds a.book };
}

impl ScriptUpstream {
    ghost use Rattle.script_upstream.specs.Upstream.{told_by, Notes, NotesNothing, Polls};
    ghost use Rattle.script_upstream.specs.Script.{is_qualified_script};
    ghost use Rattle.script_upstream.specs.Giving.{refusal, Gives};
    ghost use Rattle.script_upstream.specs.Stage.{TellsConnection, TellsQuestion};

    /// An upstream of a script, with an empty log. Its index of the lines wants memory.
    pub fn new(alloc: Global, script: Script) -> Result<Self, NoMemory>
        requires { IsTrue (is_qualified_script script) }
        ensures { IfOk result (λ u. u ≡ record { script = script; noted = []; late = []; faults = 0; pendings = 0 }) }
    {
        let book = ScriptLog::new(alloc, script)?;
        Ok(ScriptUpstream {
            alloc,
            book,
            faults: 0,
            pendings: 0,
        })
    }

    /// The log, without the give-ups that wait for memory, which `gather` brings in.
    pub fn log(&self) -> &Log
        ensures log { result.now ≡ self.now.noted }
        ensures told { told_by self.now ≡ result.now ++ self.now.late }
        ensures gives { Gives self.now.script (told_by self.now) }
    {
        &self.book.log
    }

    /// Brings the give-ups that wait for memory into the log that `log` lends.
    pub fn gather(&mut self) -> Result<(), NoMemory>
        ensures told { told_by self.new ≡ told_by self.old }
        ensures same { self.new ≡ record self.old { noted = self.new.noted; late = self.new.late } }
        ensures ok { OnOk result (self.new.late ≡ []) }
    {
        self.book.gather(self.alloc)
    }

    pub(crate) fn is_refused(&self, endpoint: &Endpoint) -> bool
        ensures { result ≡ is_some (refusal self.now.script endpoint.now) }
    {
        self.book.is_refused(endpoint)
    }

    pub(crate) fn note_refusal(&mut self, endpoint: Endpoint, now: u64) -> Result<(), NoMemory>
        requires { refusal self.old.script endpoint ≡ Some (Io Refused) }
        ensures ok { OnOk result (Notes self.old self.new (Opened endpoint.ip endpoint.protocol now (Some (Io Refused)))) }
        ensures err { OnErr result (NotesNothing self.old self.new) }
    {
        self.book.refuse(self.alloc, endpoint, now)
    }

    pub(crate) fn note_open(&mut self, endpoint: Endpoint, now: u64) -> Result<u64, NoMemory>
        requires { refusal self.old.script endpoint ≡ None }
        ensures number { IfOk result (λ n. n ≡ length (told_by self.old) + 1) }
        ensures ok { OnOk result (Notes self.old self.new (Opened endpoint.ip endpoint.protocol now None)) }
        ensures err { OnErr result (NotesNothing self.old self.new) }
    {
        self.book.open(self.alloc, endpoint, now)
    }

    pub(crate) fn note_ask(
        &mut self,
        endpoint: Endpoint,
        query: &Query,
        now: u64,
    ) -> Result<u64, NoMemory>
        ensures number { IfOk result (λ n. n ≡ length (told_by self.old) + 1) }
        ensures ok { OnOk result (Notes self.old self.new (Asked endpoint.ip endpoint.protocol query.now now None)) }
        ensures err { OnErr result (NotesNothing self.old self.new) }
    {
        self.book.ask(self.alloc, endpoint, query, now)
    }

    pub(crate) fn note_give_up(&mut self, room: Room, number: u64, now: u64)
        ensures { Notes self.old self.new (GaveUp number now) }
    {
        self.book.give_up(self.alloc, room, number, now);
    }

    /// Polls a connection, and notes what it finds.
    pub(crate) fn poll_open(&mut self, number: u64, now: u64) -> Poll<Result<ToldOutcome, NoMemory>>
        ensures { Polls TellsConnection self.old self.new number now result }
    {
        match self.book.connection_stage(number) {
            Stage::Unknown => Poll::Ready(Err(NoMemory)),
            Stage::Waits => match self.book.wait(self.alloc, number) {
                Ok(()) => Poll::Pending,
                Err(error) => Poll::Ready(Err(error)),
            },
            Stage::Due => Poll::Ready(self.book.tell(self.alloc, number, now)),
        }
    }

    /// Polls a question, and notes what it finds.
    pub(crate) fn poll_ask(
        &mut self,
        number: u64,
        query: &Query,
        now: u64,
    ) -> Poll<Result<ToldOutcome, NoMemory>>
        ensures { Polls (TellsQuestion query.now) self.old self.new number now result }
    {
        match self.book.question_stage(number, query) {
            Stage::Unknown => Poll::Ready(Err(NoMemory)),
            Stage::Waits => match self.book.wait(self.alloc, number) {
                Ok(()) => Poll::Pending,
                Err(error) => Poll::Ready(Err(error)),
            },
            Stage::Due => Poll::Ready(self.book.tell(self.alloc, number, now)),
        }
    }

    /// Counts a call that failed.
    pub(crate) fn count_fault(&mut self)
        ensures faults { Rose self.old.faults self.new.faults }
        ensures same { self.new ≡ record self.old { faults = self.new.faults } }
    {
        self.faults = self.faults.saturating_add(1);
    }

    /// Counts a poll that found nothing yet.
    pub(crate) fn count_pending(&mut self)
        ensures pendings { Rose self.old.pendings self.new.pendings }
        ensures same { self.new ≡ record self.old { pendings = self.new.pendings } }
    {
        self.pendings = self.pendings.saturating_add(1);
    }
}
