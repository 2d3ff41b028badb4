//! The book of a script: its log, and what each open entry still comes to.
ghost use Rattle.std.specs.Option.{option_map, option_copied};
ghost use Rattle.std.specs.HashMap.{get};
ghost use Rattle.script_upstream.specs.declared.courses.course.ScriptedReply.{ScriptedReply as Known};
ghost use Rattle.script_upstream.specs.declared.courses.course.ScriptedReply.TheVariants.{Never};
ghost use Rattle.script_upstream.specs.Course.{reply_course, is_qualified_course};
ghost use Rattle.script_upstream.specs.Script.{is_qualified_script};
ghost use Rattle.dns_core.specs.declared.net_error.NetError.TheVariants.{Io};
ghost use Rattle.dns_core.specs.declared.net_error.IoKind.TheVariants.{Refused};
ghost use Rattle.dns_core.specs.declared.log.LogEntry.TheVariants.{Opened, Asked, Waited, Told, GaveUp};
ghost use Rattle.std.specs.Prelude.{◌≡◌, ℕ, ◌+◌, find, slice_get, unwrap_or, option_and_then, true, IfSome, nat_eq, is_some, if◌then◌else◌, [], ◌∷◌, ◌++◌, Some, None, IfOk, IfErr, OnOk, OnErr, IsTrue, length};

use crate::courses::course::{ScriptedReply, Stage};
use crate::courses::index::{Asking, Endpoint, Index};
use crate::script::late::{Room, UnrecordedEntries, push_or_back};
use crate::script::script::{Script, ScriptLine};
use dns_core::{IoKind, Items, Log, LogEntry, NetError, NoMemory, Query, ToldOutcome, TryClone};
use std::alloc::Global;
use std::collections::HashMap;

/// A script, where its lines are, what each open entry still comes to, and the log.
pub struct ScriptLog {
    pub script: Script,
    pub index: Index,
    pub open: HashMap<u64, ScriptedReply>,
    pub log: Log,
    pub late: UnrecordedEntries,
}

impl Drop for ScriptLog {
    fn drop(self) {
        let ScriptLog {
            script: _,
            index: _,
            open: _,
            log: _,
            late: _,
        } = self;
    }
}

/// Knows what the entry of a number comes to that opened or asked, and notes it, or does neither.
fn begin(
    open: &mut HashMap<u64, ScriptedReply>,
    log: &mut Log,
    number: u64,
    course: ScriptedReply,
    entry: LogEntry,
) -> Result<(), NoMemory>
    ensures known { OnOk result ((n : ℕ) → get nat_eq open.new n ≡ (if nat_eq number n then Some course else get nat_eq open.old n)) }
    ensures noted { OnOk result (log.new ≡ log.old ++ entry ∷ []) }
    ensures fewer { OnErr result ((n : ℕ) (c : Known) → get nat_eq open.new n ≡ Some c → get nat_eq open.old n ≡ Some c) }
    ensures same { OnErr result (log.new ≡ log.old) }
{
    match open.insert(number, course) {
        Ok(replaced) => drop(replaced),
        Err(failed) => {
            drop(failed);
            drop(entry);
            return Err(NoMemory);
        }
    }
    let noted = log.push(entry);
    if noted.is_err() {
        drop(open.remove(&number));
    }
    noted
}

/// The entry of a question that is asked.
fn asked_entry(endpoint: Endpoint, query: Query, now: u64) -> LogEntry
    ensures { result ≡ Asked endpoint.ip endpoint.protocol query now None }
{
    LogEntry::Asked {
        ip: endpoint.ip,
        protocol: endpoint.protocol,
        query,
        moment: now,
        refused: None,
    }
}

/// What a question comes to that takes the line at a place, and one that takes none never ends.
fn question_course(
    alloc: Global,
    script: &Script,
    place: Option<usize>,
    query: &Query,
) -> Result<ScriptedReply, NoMemory>
    requires { IsTrue (is_qualified_script script.now) }
    ensures course { IfOk result (λ c. c ≡ unwrap_or (option_map (reply_course query.now) (option_and_then (slice_get script.now.lines) place)) Never) }
    ensures qualified { IfOk result (λ c. IsTrue (is_qualified_course c)) }
{
    let Some(place) = place else {
        return Ok(ScriptedReply::Never);
    };
    match script.lines.items().get(place) {
        Some(line) => ScriptedReply::of_question(alloc, query, line),
        None => Ok(ScriptedReply::Never),
    }
}

impl ScriptLog {
    ghost use Rattle.script_upstream.specs.Book.{told, open_at, Holds, SameScript, IsStage, IsDue, IsDueAs, Waits};
    ghost use Rattle.script_upstream.specs.Stage.{TellsConnection, TellsQuestion};
    ghost use Rattle.script_upstream.specs.declared.courses.course.ScriptedReply.TheVariants.{After};
    ghost use Rattle.script_upstream.specs.Script.{is_qualified_line};
    ghost use Rattle.script_upstream.specs.Giving.{connects, refusal, connection_course};
    ghost use Rattle.script_upstream.specs.Course.{is_qualified_told, shortened};

    pub fn new(alloc: Global, script: Script) -> Result<ScriptLog, NoMemory>
        requires { IsTrue (is_qualified_script script) }
        ensures holds { IfOk result Holds }
        ensures script { IfOk result (λ book. book.script ≡ script) }
        ensures log { IfOk result (λ book. book.log ≡ []) }
        ensures late { IfOk result (λ book. book.late ≡ []) }
    {
        let index = Index::of(alloc, script.lines.items())?;
        Ok(ScriptLog {
            script,
            index,
            open: HashMap::new(alloc),
            log: Items::empty(alloc),
            late: UnrecordedEntries::new(),
        })
    }

    /// Moves the entries that wait for memory into the log.
    pub fn gather(&mut self, alloc: Global) -> Result<(), NoMemory>
        ensures told { told self.new ≡ told self.old }
        ensures open { self.new.open ≡ self.old.open }
        ensures same { SameScript self.old self.new }
        ensures ok { OnOk result (self.new.late ≡ []) }
    {
        self.late.pour(alloc, &mut self.log)
    }

    /// Gathers the log, and answers the number of the next entry where one is left, with some more
    /// for give-ups.
    fn next_number(&mut self, alloc: Global) -> Result<u64, NoMemory>
        ensures told { told self.new ≡ told self.old }
        ensures open { self.new.open ≡ self.old.open }
        ensures same { SameScript self.old self.new }
        ensures late { OnOk result (self.new.late ≡ []) }
        ensures number { IfOk result (λ n. n ≡ length (told self.old) + 1) }
    {
        self.gather(alloc)?;
        let count = self.log.len() as u64;
        if count >= u64::MAX - 2 {
            return Err(NoMemory);
        }
        Ok(count + 1)
    }

    fn forget(&mut self, number: u64)
        ensures fewer { (n : ℕ) → open_at self.new n ≡ (if nat_eq number n then None else open_at self.old n) }
        ensures same { self.new ≡ record self.old { «open» = self.new.open } }
    {
        drop(self.open.remove(&number));
    }

    pub fn is_refused(&self, endpoint: &Endpoint) -> bool
        requires { Holds self.now }
        ensures { result ≡ is_some (refusal self.now.script endpoint.now) }
    {
        self.index.is_refused(endpoint)
    }

    /// The first line that says what a connection comes to.
    fn connection_line(&self, endpoint: &Endpoint) -> Option<&ScriptLine>
        requires { Holds self.now }
        ensures found { option_copied result ≡ find (connects endpoint.now) self.now.script.lines }
        ensures qualified { IfSome result (λ line. is_qualified_line line.now ≡ true) }
    {
        match self.index.connection_place(endpoint) {
            Some(place) => self.script.lines.items().get(place),
            None => None,
        }
    }

    /// What a connection comes to.
    fn connection(&self, alloc: Global, endpoint: &Endpoint) -> Result<ScriptedReply, NoMemory>
        requires { Holds self.now }
        ensures course { IfOk result (λ c. c ≡ connection_course self.now.script endpoint.now) }
        ensures qualified { IfOk result (λ c. IsTrue (is_qualified_course c)) }
    {
        match self.connection_line(endpoint) {
            Some(line) => ScriptedReply::of_connection(alloc, line),
            None => Ok(ScriptedReply::After {
                polls: 0,
                outcome: ToldOutcome::Connected,
            }),
        }
    }

    /// Notes that a connection is refused.
    pub fn refuse(&mut self, alloc: Global, endpoint: Endpoint, now: u64) -> Result<(), NoMemory>
        requires holds { Holds self.old }
        requires refused { refusal self.old.script endpoint ≡ Some (Io Refused) }
        ensures holds { Holds self.new }
        ensures script { self.new.script ≡ self.old.script }
        ensures ok { OnOk result (told self.new ≡ told self.old ++ Opened endpoint.ip endpoint.protocol now (Some (Io Refused)) ∷ []) }
        ensures err { OnErr result (told self.new ≡ told self.old) }
    {
        self.next_number(alloc)?;
        self.log.push(LogEntry::Opened {
            ip: endpoint.ip,
            protocol: endpoint.protocol,
            moment: now,
            refused: Some(NetError::Io(IoKind::Refused)),
        })?;
        Ok(())
    }

    /// Notes that a connection is to be opened, and answers its number.
    pub fn open(&mut self, alloc: Global, endpoint: Endpoint, now: u64) -> Result<u64, NoMemory>
        requires holds { Holds self.old }
        requires refused { refusal self.old.script endpoint ≡ None }
        ensures holds { Holds self.new }
        ensures script { self.new.script ≡ self.old.script }
        ensures number { IfOk result (λ n. n ≡ length (told self.old) + 1) }
        ensures ok { OnOk result (told self.new ≡ told self.old ++ Opened endpoint.ip endpoint.protocol now None ∷ []) }
        ensures err { OnErr result (told self.new ≡ told self.old) }
    {
        let number = self.next_number(alloc)?;
        let course = self.connection(alloc, &endpoint)?;
        let entry = LogEntry::Opened {
            ip: endpoint.ip,
            protocol: endpoint.protocol,
            moment: now,
            refused: None,
        };
        begin(&mut self.open, &mut self.log, number, course, entry)?;
        Ok(number)
    }

    /// Notes that a question is asked, which takes its line, and answers its number.
    pub fn ask(
        &mut self,
        alloc: Global,
        endpoint: Endpoint,
        query: &Query,
        now: u64,
    ) -> Result<u64, NoMemory>
        requires holds { Holds self.old }
        ensures holds { Holds self.new }
        ensures script { self.new.script ≡ self.old.script }
        ensures number { IfOk result (λ n. n ≡ length (told self.old) + 1) }
        ensures ok { OnOk result (told self.new ≡ told self.old ++ Asked endpoint.ip endpoint.protocol query.now now None ∷ []) }
        ensures err { OnErr result (told self.new ≡ told self.old) }
    {
        let asking = Asking::of(alloc, endpoint, query)?;
        let asked = query.try_clone(alloc)?;
        let number = self.next_number(alloc)?;
        match self.index.replies.get_mut(&asking) {
            Some(turns) => {
                let course = question_course(alloc, &self.script, turns.place(), query)?;
                let entry = asked_entry(endpoint, asked, now);
                begin(&mut self.open, &mut self.log, number, course, entry)?;
                turns.advance();
                Ok(number)
            }
            None => {
                let entry = asked_entry(endpoint, asked, now);
                begin(
                    &mut self.open,
                    &mut self.log,
                    number,
                    ScriptedReply::Never,
                    entry,
                )?;
                Ok(number)
            }
        }
    }

    /// What is to be done at a poll of a connection.
    pub fn connection_stage(&self, number: u64) -> Stage
        ensures { IsStage TellsConnection result (open_at self.now number) }
    {
        match self.open.get(&number) {
            None => Stage::Unknown,
            Some(course) => course.stage(course.tells_connection()),
        }
    }

    /// What is to be done at a poll of a question.
    pub fn question_stage(&self, number: u64, query: &Query) -> Stage
        ensures { IsStage (TellsQuestion query.now) result (open_at self.now number) }
    {
        match self.open.get(&number) {
            None => Stage::Unknown,
            Some(course) => course.stage(course.tells_question(query)),
        }
    }

    /// Notes that an entry was polled, and nothing was told.
    pub fn wait(&mut self, alloc: Global, number: u64) -> Result<(), NoMemory>
        requires holds { Holds self.old }
        requires waits { Waits (open_at self.old number) }
        ensures holds { Holds self.new }
        ensures script { self.new.script ≡ self.old.script }
        ensures ok { OnOk result (told self.new ≡ told self.old ++ Waited number ∷ []) }
        ensures err { OnErr result (told self.new ≡ told self.old) }
    {
        self.next_number(alloc)?;
        self.log.push(LogEntry::Waited { of: number })?;
        self.shorten(number);
        Ok(())
    }

    fn shorten(&mut self, number: u64)
        requires { Waits (open_at self.old number) }
        ensures shorter { (n : ℕ) → open_at self.new n ≡ (if nat_eq number n then option_map shortened (open_at self.old number) else open_at self.old n) }
        ensures same { self.new ≡ record self.old { «open» = self.new.open } }
    {
        if let Some(course) = self.open.get_mut(&number) {
            course.wait();
        }
    }

    /// Notes what an entry is told, and answers it.
    pub fn tell(&mut self, alloc: Global, number: u64, now: u64) -> Result<ToldOutcome, NoMemory>
        requires holds { Holds self.old }
        requires due { IsDue (λ o. Unit {0}) (open_at self.old number) }
        ensures holds { Holds self.new }
        ensures script { self.new.script ≡ self.old.script }
        ensures due { IfOk result (λ o. open_at self.old number ≡ Some (After 0 o)) }
        ensures qualified { IfOk result (λ o. IsTrue (is_qualified_told o)) }
        ensures ok { IfOk result (λ o. told self.new ≡ told self.old ++ Told number now o ∷ []) }
        ensures err { OnErr result (told self.new ≡ told self.old) }
    {
        self.next_number(alloc)?;
        let outcome = self.outcome(alloc, number)?;
        self.log.push(LogEntry::Told {
            of: number,
            moment: now,
            outcome,
        })?;
        Ok(self.take_outcome(number))
    }

    /// A copy of what an entry is to be told.
    fn outcome(&self, alloc: Global, number: u64) -> Result<ToldOutcome, NoMemory>
        ensures { IfOk result (λ o. IsDueAs o (open_at self.now number)) }
    {
        match self.open.get(&number) {
            Some(ScriptedReply::After { outcome, .. }) => outcome.try_clone(alloc),
            _ => Err(NoMemory),
        }
    }

    fn take_outcome(&mut self, number: u64) -> ToldOutcome
        requires { IsDue (λ o. Unit {0}) (open_at self.old number) }
        ensures outcome { IsDueAs result (open_at self.old number) }
        ensures fewer { (n : ℕ) → open_at self.new n ≡ (if nat_eq number n then None else open_at self.old n) }
        ensures same { self.new ≡ record self.old { «open» = self.new.open } }
    {
        match self.open.remove(&number) {
            Some(ScriptedReply::After { outcome, .. }) => outcome,
            _ => unreachable!(),
        }
    }

    /// Notes that an entry was given up, in the room that was taken for it where the log finds none.
    pub fn give_up(&mut self, alloc: Global, room: Room, number: u64, now: u64)
        requires holds { Holds self.old }
        ensures holds { Holds self.new }
        ensures script { self.new.script ≡ self.old.script }
        ensures told { told self.new ≡ told self.old ++ GaveUp number now ∷ [] }
    {
        self.forget(number);
        self.note_late(alloc, room, number, now);
    }

    fn note_late(&mut self, alloc: Global, room: Room, number: u64, now: u64)
        ensures told { told self.new ≡ told self.old ++ GaveUp number now ∷ [] }
        ensures same { SameScript self.old self.new }
        ensures opened { self.new.open ≡ self.old.open }
    {
        let entry = LogEntry::GaveUp {
            of: number,
            moment: now,
        };
        match self.gather(alloc) {
            Ok(()) => match push_or_back(&mut self.log, alloc, entry) {
                None => {}
                Some(entry) => self.late.put(room, entry),
            },
            Err(_) => self.late.put(room, entry),
        }
    }
}
