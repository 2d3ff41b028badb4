//! An entry as the cache holds it. Most are answers with the very question under which they stand:
//! such an entry has this question once, and no room for an error.
ghost use Rattle.std.specs.Prelude.{◌≡◌, ◌↔◌, Ok, IfOk, IfSome, IsSome, IsOk, IsTrue};
ghost use Rattle.kept_responses.specs.Kept.{entry_of};
ghost use Rattle.kept_responses.specs.Lowering.{lowered};

use crate::entry::Entry;
use crate::lowering::{lowered, lowered_message};
use dns_core::{Message, NetError, NoMemory, Query, TryClone, in_box};
use std::alloc::Global;
use std::marker::Model;

/// A message that stands under its own question, with the moments and the source of an entry.
#[derive(Drop, Debug)]
pub(crate) struct Answer {
    message: Message,
    written: u64,
    expiry: u64,
    source: u64,
}

/// An answer to its own question, or any other entry as it is.
#[derive(Drop, Debug)]
pub(crate) enum Kept {
    Answer(Answer),
    Other(Box<Entry>),
}

/// An entry that is kept.
#[derive(Drop, Debug)]
pub struct KeptEntry {
    kept: Box<Kept>,
}

impl Model for KeptEntry {
    ghost use Rattle.kept_responses.specs.declared.entry.Entry.{Entry as Seen};
    ghost use Rattle.kept_responses.specs.Kept.{entry_of};

    ghost Value = { Seen };

    ghost view = { λ a. entry_of a.kept.value };
}

fn is_identical(left: &Query, right: &Query) -> bool
    ensures { IsTrue result ↔ (left.now ≡ right.now) }
{
    left.query_type == right.query_type
        && left.query_class == right.query_class
        && left.name.eq_case(&right.name)
}

fn other_of(alloc: Global, entry: Entry) -> Result<Kept, NoMemory>
    ensures { IfOk result (λ kept. entry_of kept ≡ entry) }
{
    Ok(Kept::Other(in_box(alloc, entry)?))
}

fn kept_of(alloc: Global, entry: Entry) -> Result<Kept, NoMemory>
    ensures { IfOk result (λ kept. entry_of kept ≡ entry) }
{
    let Entry {
        query,
        response,
        written,
        expiry,
        source,
    } = entry;
    let response = match response {
        Ok(message) => {
            if is_identical(&query, &message.query) {
                return Ok(Kept::Answer(Answer {
                    message,
                    written,
                    expiry,
                    source,
                }));
            }
            Ok(message)
        }
        Err(error) => Err(error),
    };
    other_of(
        alloc,
        Entry {
            query,
            response,
            written,
            expiry,
            source,
        },
    )
}

impl Kept {
    fn query(&self) -> &Query
        ensures { result.now ≡ (entry_of self.now).query }
    {
        match self {
            Kept::Answer(answer) => &answer.message.query,
            Kept::Other(entry) => &entry.query,
        }
    }

    fn message(&self) -> Option<&Message>
        ensures message { IfSome result (λ m. (entry_of self.now).response ≡ Ok m.now) }
        ensures variant { IsSome result ↔ IsOk (entry_of self.now).response }
    {
        match self {
            Kept::Answer(answer) => Some(&answer.message),
            Kept::Other(entry) => match &entry.response {
                Ok(message) => Some(message),
                Err(_) => None,
            },
        }
    }

    fn lowered(&self, alloc: Global, seconds: u64) -> Result<Result<Message, NetError>, NoMemory>
        ensures { IfOk result (λ copy. copy ≡ lowered seconds (entry_of self.now).response) }
    {
        match self {
            Kept::Answer(answer) => Ok(Ok(lowered_message(alloc, &answer.message, seconds)?)),
            Kept::Other(entry) => lowered(alloc, &entry.response, seconds),
        }
    }

    fn written(&self) -> u64
        ensures { result ≡ (entry_of self.now).written }
    {
        match self {
            Kept::Answer(answer) => answer.written,
            Kept::Other(entry) => entry.written,
        }
    }

    fn expiry(&self) -> u64
        ensures { result ≡ (entry_of self.now).expiry }
    {
        match self {
            Kept::Answer(answer) => answer.expiry,
            Kept::Other(entry) => entry.expiry,
        }
    }

    fn source(&self) -> u64
        ensures { result ≡ (entry_of self.now).source }
    {
        match self {
            Kept::Answer(answer) => answer.source,
            Kept::Other(entry) => entry.source,
        }
    }

    fn copied(&self, alloc: Global) -> Result<Kept, NoMemory>
        ensures { IfOk result (λ copy. entry_of copy ≡ entry_of self.now) }
    {
        match self {
            Kept::Answer(answer) => Ok(Kept::Answer(Answer {
                message: answer.message.try_clone(alloc)?,
                written: answer.written,
                expiry: answer.expiry,
                source: answer.source,
            })),
            Kept::Other(entry) => other_of(alloc, entry.try_clone(alloc)?),
        }
    }
}

impl KeptEntry {
    /// An entry in the form in which it is kept. It fails only where memory runs out.
    pub fn new(alloc: Global, entry: Entry) -> Result<Self, NoMemory>
        ensures { IfOk result (λ kept. kept ≡ entry) }
    {
        let kept = in_box(alloc, kept_of(alloc, entry)?)?;
        Ok(KeptEntry { kept })
    }

    pub fn query(&self) -> &Query
        ensures { result.now ≡ self.now.query }
    {
        self.kept.query()
    }

    /// The message, where the response is one.
    pub fn message(&self) -> Option<&Message>
        ensures message { IfSome result (λ m. self.now.response ≡ Ok m.now) }
        ensures variant { IsSome result ↔ IsOk self.now.response }
    {
        self.kept.message()
    }

    /// The response with each TTL so many seconds lower, not below 0.
    pub fn lowered(
        &self,
        alloc: Global,
        seconds: u64,
    ) -> Result<Result<Message, NetError>, NoMemory>
        ensures { IfOk result (λ copy. copy ≡ lowered seconds self.now.response) }
    {
        self.kept.lowered(alloc, seconds)
    }

    pub fn written(&self) -> u64
        ensures { result ≡ self.now.written }
    {
        self.kept.written()
    }

    pub fn expiry(&self) -> u64
        ensures { result ≡ self.now.expiry }
    {
        self.kept.expiry()
    }

    pub fn source(&self) -> u64
        ensures { result ≡ self.now.source }
    {
        self.kept.source()
    }
}

impl TryClone for KeptEntry {
    fn try_clone(&self, alloc: Global) -> Result<Self, NoMemory> {
        let kept = in_box(alloc, self.kept.copied(alloc)?)?;
        Ok(KeptEntry { kept })
    }
}
