//! The cache of responses alone, with so many entries, and its calls.

use crate::benches::failure::Failure;
use dns_core::{
    DnsClass, Message, Name, NetError, NoMemory, Query, RData, Record, RecordType, Records,
    ResponseCode, TryClone,
};
use resolver_cache::ResponseCache;
use resolver_settings::TtlConfig;
use std::alloc::Global;
use std::net::Ipv4Addr;

/// What is done with each question that is made, and with an answer that is made for it.
#[derive(Clone, Copy)]
pub enum Call {
    /// Nothing: both are let go.
    Make,
    /// The question is read, and the answer let go.
    Get,
    /// The answer is written.
    Put,
}

impl Call {
    pub fn text(self) -> &'static str {
        match self {
            Call::Make => "make",
            Call::Get => "get",
            Call::Put => "put",
        }
    }
}

/// So many calls of a cache that has so many entries, on questions that are there.
#[derive(Clone, Copy)]
pub struct Calls {
    pub entries: u32,
    pub call: Call,
    pub times: u32,
}

/// The question of an entry. Its name is that of the entry's number, spread over 32 bits, so that names do
/// not come in their order.
fn question(alloc: Global, entry: u32) -> Result<Query, Failure> {
    let spread = entry.wrapping_mul(2_654_435_761);
    let text = format!(in alloc; "h{spread}.example.com.")?;
    match Name::parse(alloc, &text) {
        Ok(name) => Ok(Query {
            name,
            query_type: RecordType::A,
            query_class: DnsClass::IN,
        }),
        Err(_) => Err(Failure::NoMemory),
    }
}

fn address(alloc: Global, query: &Query, ttl: u32) -> Result<Record, NoMemory> {
    Ok(Record {
        name: query.name.try_clone(alloc)?,
        ttl,
        dns_class: DnsClass::IN,
        record_type: RecordType::A,
        rdata: RData::A(Ipv4Addr::new(192, 0, 2, 1)),
    })
}

/// An answer to a question that lives from a minute to an hour, by a number whose neighbours' lives lie far
/// from it.
fn answer(alloc: Global, query: &Query, number: u32) -> Result<Message, NoMemory> {
    let ttl = (number.wrapping_mul(2_246_822_519) % 3_600).saturating_add(60);
    let mut answers = Records::empty(alloc);
    answers.push(address(alloc, query, ttl)?)?;
    Ok(Message {
        query: query.try_clone(alloc)?,
        response_code: ResponseCode::NoError,
        authoritative: true,
        truncation: false,
        answers,
        authorities: Records::empty(alloc),
        additionals: Records::empty(alloc),
    })
}

fn empty(alloc: Global, size: u32) -> Result<ResponseCache, Failure> {
    match ResponseCache::new(alloc, u64::from(size), TtlConfig::standard(alloc)) {
        Ok(cache) => Ok(cache),
        Err(_) => Err(Failure::Refused),
    }
}

/// Writes an entry, at the microsecond of its number.
fn fill(alloc: Global, cache: &mut ResponseCache, entry: u32) -> Result<(), Failure> {
    let query = question(alloc, entry)?;
    let answer = answer(alloc, &query, entry)?;
    cache.insert(alloc, query, Ok(answer), u64::from(entry))?;
    Ok(())
}

/// A cache with so many entries, written a microsecond apart from each other.
fn filled(alloc: Global, entries: u32) -> Result<ResponseCache, Failure> {
    let mut cache = empty(alloc, entries)?;
    for entry in 0..entries {
        fill(alloc, &mut cache, entry)?;
    }
    Ok(cache)
}

fn is_answer(found: Option<Result<Message, NetError>>) -> bool {
    matches!(found, Some(Ok(_)))
}

/// Whether the cache has an answer to a question. What was made beside it is let go.
fn is_found(
    alloc: Global,
    cache: &ResponseCache,
    query: Query,
    _made: Message,
    now: u64,
) -> Result<bool, NoMemory> {
    Ok(is_answer(cache.get(alloc, &query, now)?))
}

impl Calls {
    /// Makes a question and an answer, and does the call with them. Gives whether an answer is found.
    fn goes(
        self,
        alloc: Global,
        cache: &mut ResponseCache,
        turn: u32,
        now: u64,
    ) -> Result<bool, Failure> {
        let entry = turn.wrapping_mul(7_919).checked_rem(self.entries);
        let query = question(alloc, entry.unwrap_or(0))?;
        let answer = answer(alloc, &query, turn)?;
        match self.call {
            Call::Make => Ok(false),
            Call::Get => Ok(is_found(alloc, cache, query, answer, now)?),
            Call::Put => {
                cache.insert(alloc, query, Ok(answer), now)?;
                Ok(false)
            }
        }
    }

    /// Makes the calls. Gives how many find an answer, and how many entries there are then.
    fn go_over(self, alloc: Global, cache: &mut ResponseCache) -> Result<(u32, u64), Failure> {
        let mut found: u32 = 0;
        for turn in 0..self.times {
            if self.goes(alloc, cache, turn, u64::from(self.entries))? {
                found = found.saturating_add(1);
            }
        }
        Ok((found, cache.entry_count()))
    }

    /// The same on a cache that is filled before.
    pub fn go(self, alloc: Global) -> Result<(u32, u64), Failure> {
        let mut cache = filled(alloc, self.entries)?;
        self.go_over(alloc, &mut cache)
    }
}

fn hold_one(alloc: Global, held: &mut Vec<Message>, entry: u32) -> Result<(), Failure> {
    let query = question(alloc, entry)?;
    held.push(answer(alloc, &query, entry)?)?;
    Ok(())
}

/// Makes so many answers without a cache, and holds them all. Gives how many there are.
pub fn hold(alloc: Global, answers: u32) -> Result<usize, Failure> {
    let mut held = Vec::with_capacity(alloc, answers as usize)?;
    for entry in 0..answers {
        hold_one(alloc, &mut held, entry)?;
    }
    Ok(held.len())
}
