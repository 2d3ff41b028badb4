//! The book of a world: its log, and how long each open entry still waits.
ghost use Rattle.std.specs.Prelude.{◌≡◌, ◌↔◌, ℕ, ◌+◌, ◌-◌, nat_eq, if◌then◌else◌, [], ◌∷◌, ◌++◌, Some, None, IfOk, OnOk, OnErr, IsTrue, IsSomeAnd, length};
ghost use Rattle.std.specs.Option.{option_map, option_copied};
ghost use Rattle.dns_core.specs.Log.{numbered};
ghost use Rattle.dns_core.specs.Message.{is_qualified_message};
ghost use Rattle.dns_core.specs.declared.log.LogEntry.TheVariants.{Waited, Told, GaveUp};
ghost use Rattle.dns_core.specs.declared.log.ToldOutcome.TheVariants.{Connected, Message as Answered};

use dns_core::{Items, Log, LogEntry, Message, NoMemory, Query, ToldOutcome, TryClone};
use script_upstream::{Room, UnrecordedEntries, push_or_back};
use std::alloc::Global;
use std::collections::HashMap;
use zone_worlds::IndexedWorld;

/// A world, how many polls of each open entry find nothing yet, and the log.
pub struct WorldLog {
    pub world: IndexedWorld,
    pub open: HashMap<u64, u32>,
    pub log: Log,
    pub late: UnrecordedEntries,
}

impl Drop for WorldLog {
    fn drop(self) {
        let WorldLog {
            world: _,
            open: _,
            log: _,
            late: _,
        } = self;
    }
}

impl WorldLog {
    ghost use Rattle.world_upstream.specs.Book.{told, open_at, Holds, Begins, Waits, IsDue};
    ghost use Rattle.world_upstream.specs.Giving.{delay, ComesTo};
    ghost use Rattle.world_upstream.specs.Qualified.{is_qualified_world};

    pub fn new(alloc: Global, world: IndexedWorld) -> WorldLog
        requires { IsTrue (is_qualified_world world) }
        ensures holds { Holds result }
        ensures world { result.world ≡ world }
        ensures log { result.log ≡ [] }
        ensures late { result.late ≡ [] }
    {
        WorldLog {
            world,
            open: HashMap::new(alloc),
            log: Items::empty(alloc),
            late: UnrecordedEntries::new(),
        }
    }

    /// Moves the entries that wait for memory into the log.
    pub fn gather(&mut self, alloc: Global) -> Result<(), NoMemory>
        ensures told { told self.new ≡ told self.old }
        ensures open { self.new.open ≡ self.old.open }
        ensures world { self.new.world ≡ self.old.world }
        ensures ok { OnOk result (self.new.late ≡ []) }
    {
        self.late.pour(alloc, &mut self.log)
    }

    /// Gathers the log, and answers the number of the next entry where one is left, with some more
    /// for give-ups.
    fn next_number(&mut self, alloc: Global) -> Result<u64, NoMemory>
        ensures told { told self.new ≡ told self.old }
        ensures open { self.new.open ≡ self.old.open }
        ensures world { self.new.world ≡ self.old.world }
        ensures late { OnOk result (self.new.late ≡ []) }
        ensures number { IfOk result (λ n. n ≡ length (told self.old) + 1) }
    {
        self.gather(alloc)?;
        let count = self.log.len() as u64;
        if count >= u64::MAX - 2 {
            return Err(NoMemory);
        }
        Ok(count + 1)
    }

    /// Knows how many polls of the entry of a number find nothing yet.
    fn expect(&mut self, number: u64, polls: u32) -> Result<(), NoMemory>
        ensures ok { OnOk result ((n : ℕ) → open_at self.new n ≡ (if nat_eq number n then Some polls else open_at self.old n)) }
        ensures err { OnErr result ((n : ℕ) → open_at self.new n ≡ open_at self.old n) }
        ensures same { self.new ≡ record self.old { «open» = self.new.open } }
    {
        self.open.insert(number, polls)?;
        Ok(())
    }

    fn forget(&mut self, number: u64)
        ensures fewer { (n : ℕ) → open_at self.new n ≡ (if nat_eq number n then None else open_at self.old n) }
        ensures same { self.new ≡ record self.old { «open» = self.new.open } }
    {
        self.open.remove(&number);
    }

    /// Notes an entry that opened or asked, or forgets it.
    fn note(&mut self, number: u64, entry: LogEntry) -> Result<(), NoMemory>
        ensures ok { OnOk result (self.new ≡ record self.old { log = self.old.log ++ entry ∷ [] }) }
        ensures err { OnErr result (self.new ≡ record self.old { «open» = self.new.open }) }
        ensures fewer { OnErr result ((n : ℕ) → open_at self.new n ≡ (if nat_eq number n then None else open_at self.old n)) }
    {
        let noted = self.log.push(entry);
        if noted.is_err() {
            self.forget(number);
        }
        noted
    }

    /// Notes that a connection is to be opened or a question is asked, and answers its number.
    pub fn begin(&mut self, alloc: Global, entry: LogEntry, polls: u32) -> Result<u64, NoMemory>
        requires holds { Holds self.old }
        requires begins { Begins entry }
        requires polls { polls ≡ delay self.old.world entry }
        ensures holds { Holds self.new }
        ensures world { self.new.world ≡ self.old.world }
        ensures number { IfOk result (λ n. n ≡ length (told self.old) + 1) }
        ensures ok { OnOk result (told self.new ≡ told self.old ++ entry ∷ []) }
        ensures err { OnErr result (told self.new ≡ told self.old) }
    {
        let Ok(number) = self.next_number(alloc) else {
            drop(entry);
            return Err(NoMemory);
        };
        match self.expect(number, polls) {
            Ok(()) => {
                self.note(number, entry)?;
                Ok(number)
            }
            Err(NoMemory) => {
                drop(entry);
                Err(NoMemory)
            }
        }
    }

    /// How many polls of the entry of a number find nothing yet, where it is open.
    pub fn polls_left(&self, number: u64) -> Option<u32>
        ensures { result ≡ open_at self.now number }
    {
        self.open.get(&number).copied()
    }

    /// Notes that an entry was polled, and nothing was told.
    pub fn wait(&mut self, alloc: Global, number: u64) -> Result<(), NoMemory>
        requires holds { Holds self.old }
        requires waits { Waits (open_at self.old number) }
        ensures holds { Holds self.new }
        ensures world { self.new.world ≡ self.old.world }
        ensures ok { OnOk result (told self.new ≡ told self.old ++ Waited number ∷ []) }
        ensures err { OnErr result (told self.new ≡ told self.old) }
    {
        self.next_number(alloc)?;
        self.log.push(LogEntry::Waited { of: number })?;
        self.shorten(number);
        Ok(())
    }

    fn shorten(&mut self, number: u64)
        requires { Waits (open_at self.old number) }
        ensures shorter { (n : ℕ) → open_at self.new n ≡ (if nat_eq number n then option_map (λ polls. polls - 1) (open_at self.old number) else open_at self.old n) }
        ensures same { self.new ≡ record self.old { «open» = self.new.open } }
    {
        if let Some(polls) = self.open.get_mut(&number) {
            *polls -= 1;
        }
    }

    /// The entry of a number, where the log that found memory has it.
    fn entry(&self, number: u64) -> Option<&LogEntry>
        ensures { option_copied result ≡ numbered self.now.log number }
    {
        if number == 0 {
            return None;
        }
        self.log.items().get(number as usize - 1)
    }

    /// Whether the entry of a number opened a connection.
    fn is_opening(&self, number: u64) -> bool
        ensures { IsTrue result → IsSomeAnd (numbered (told self.now) number) (ComesTo self.now.world Connected) }
    {
        match self.entry(number) {
            Some(LogEntry::Opened { .. }) => true,
            _ => false,
        }
    }

    /// What the entry of a number is told that asked this question.
    fn message(&self, alloc: Global, number: u64, query: &Query) -> Result<Message, NoMemory>
        requires { IsTrue (is_qualified_world self.now.world) }
        ensures comes { IfOk result (λ m. IsSomeAnd (numbered (told self.now) number) (ComesTo self.now.world (Answered m))) }
        ensures query { IfOk result (λ m. m.query ≡ query.now) }
        ensures qualified { IfOk result (λ m. IsTrue (is_qualified_message m)) }
    {
        match self.entry(number) {
            Some(
                LogEntry::Asked {
                    ip,
                    query: asked,
                    ..
                },
            ) => {
                if is_same_query(asked, query) {
                    self.world.told(alloc, *ip, query)
                } else {
                    Err(NoMemory)
                }
            }
            _ => Err(NoMemory),
        }
    }

    /// Notes what an entry is told.
    fn tell(
        &mut self,
        alloc: Global,
        number: u64,
        outcome: ToldOutcome,
        now: u64,
    ) -> Result<(), NoMemory>
        requires holds { Holds self.old }
        requires due { IsDue self.old number outcome }
        ensures holds { Holds self.new }
        ensures world { self.new.world ≡ self.old.world }
        ensures ok { OnOk result (told self.new ≡ told self.old ++ Told number now outcome ∷ []) }
        ensures err { OnErr result (told self.new ≡ told self.old) }
    {
        self.next_number(alloc)?;
        self.log.push(LogEntry::Told {
            of: number,
            moment: now,
            outcome,
        })?;
        self.forget(number);
        Ok(())
    }

    /// Notes that the connection of a number is connected, where it is open.
    pub fn connect(&mut self, alloc: Global, number: u64, now: u64) -> Result<(), NoMemory>
        requires holds { Holds self.old }
        ensures holds { Holds self.new }
        ensures world { self.new.world ≡ self.old.world }
        ensures ok { OnOk result (told self.new ≡ told self.old ++ Told number now Connected ∷ []) }
        ensures err { OnErr result (told self.new ≡ told self.old) }
    {
        if self.polls_left(number) == Some(0) && self.is_opening(number) {
            self.tell(alloc, number, ToldOutcome::Connected, now)
        } else {
            Err(NoMemory)
        }
    }

    /// Notes what the question of a number is told, and answers it.
    pub fn answer(
        &mut self,
        alloc: Global,
        number: u64,
        query: &Query,
        now: u64,
    ) -> Result<Message, NoMemory>
        requires holds { Holds self.old }
        requires due { open_at self.old number ≡ Some 0 }
        ensures holds { Holds self.new }
        ensures world { self.new.world ≡ self.old.world }
        ensures ok { IfOk result (λ m. told self.new ≡ told self.old ++ Told number now (Answered m) ∷ []) }
        ensures err { OnErr result (told self.new ≡ told self.old) }
        ensures query { IfOk result (λ m. m.query ≡ query.now) }
        ensures qualified { IfOk result (λ m. IsTrue (is_qualified_message m)) }
    {
        let message = self.message(alloc, number, query)?;
        let copy = message.try_clone(alloc)?;
        self.tell(alloc, number, ToldOutcome::Message(copy), now)?;
        Ok(message)
    }

    /// Notes that an entry was given up, in the room that was taken for it where the log finds none.
    pub fn give_up(&mut self, alloc: Global, room: Room, number: u64, now: u64)
        requires holds { Holds self.old }
        ensures holds { Holds self.new }
        ensures world { self.new.world ≡ self.old.world }
        ensures told { told self.new ≡ told self.old ++ GaveUp number now ∷ [] }
    {
        self.forget(number);
        self.note_late(alloc, room, number, now);
    }

    fn note_late(&mut self, alloc: Global, room: Room, number: u64, now: u64)
        ensures told { told self.new ≡ told self.old ++ GaveUp number now ∷ [] }
        ensures world { self.new.world ≡ self.old.world }
        ensures opened { self.new.open ≡ self.old.open }
    {
        let entry = LogEntry::GaveUp {
            of: number,
            moment: now,
        };
        match self.gather(alloc) {
            Ok(()) => match push_or_back(&mut self.log, alloc, entry) {
                None => {}
                Some(entry) => self.late.put(room, entry),
            },
            Err(_) => self.late.put(room, entry),
        }
    }
}

/// Whether two questions are equal with case.
fn is_same_query(left: &Query, right: &Query) -> bool
    ensures { IsTrue result ↔ (left.now ≡ right.now) }
{
    left.name.eq_case(&right.name)
        && left.query_type == right.query_type
        && left.query_class == right.query_class
}
