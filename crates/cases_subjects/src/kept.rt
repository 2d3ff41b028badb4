//! Lines on a cache of responses, and what is seen of it after each.

use crate::cache_steps::{Asked, Seen, Step, Told, Writing, put_line, step_of};
use dns_core::{
    Boxed, DnsClass, DnsError, Message, Name, NameError, NetError, NoMemory, NoRecords, Query,
    RData, Record, RecordType, Records, ResponseCode, Soa, TryClone,
};
use resolver_cache::{CachedResponse, ResponseCache};
use resolver_settings::TtlConfig;
use std::alloc::Global;
use std::net::Ipv4Addr;

/// An empty cache. Standard bounds are not reversed, so it is refused for no other cause.
fn new(alloc: Global, size: u64) -> Result<ResponseCache, NoMemory> {
    match ResponseCache::new(alloc, size, TtlConfig::standard(alloc)) {
        Ok(cache) => Ok(cache),
        Err(_) => Err(NoMemory),
    }
}

fn query_of(alloc: Global, asked: Asked<'_>) -> Result<Query, NameError> {
    Ok(Query {
        name: Name::parse(alloc, asked.name)?,
        query_type: RecordType { code: asked.kind },
        query_class: DnsClass { code: asked.class },
    })
}

/// A record with this TTL. Its data, which no cache looks at, are an address.
fn record(alloc: Global, asked: Asked<'_>, ttl: u32) -> Result<Record, NameError> {
    Ok(Record {
        name: Name::parse(alloc, asked.name)?,
        ttl,
        dns_class: DnsClass::IN,
        record_type: RecordType::A,
        rdata: RData::A(Ipv4Addr::new(192, 0, 2, 1)),
    })
}

fn message(alloc: Global, asked: Asked<'_>, ttl: u32) -> Result<Message, NameError> {
    let query = query_of(alloc, asked)?;
    let mut answers = Records::empty(alloc);
    answers.push(record(alloc, asked, ttl)?)?;
    Ok(Message {
        query,
        response_code: ResponseCode::NoError,
        authoritative: true,
        truncation: false,
        answers,
        authorities: Records::empty(alloc),
        additionals: Records::empty(alloc),
    })
}

fn soa(alloc: Global, ttl: u32, minimum: u32) -> Result<Record, NameError> {
    let data = Soa {
        mname: Name::parse(alloc, "ns.example.")?,
        rname: Name::parse(alloc, "admin.example.")?,
        serial: 1,
        refresh: 1800,
        retry: 900,
        expire: 604_800,
        minimum,
    };
    Ok(Record {
        name: Name::parse(alloc, "example.")?,
        ttl,
        dns_class: DnsClass::IN,
        record_type: RecordType::SOA,
        rdata: RData::SOA(Boxed::new(alloc, data)?),
    })
}

fn denial(alloc: Global, asked: Asked<'_>, ttl: u32, minimum: u32) -> Result<NoRecords, NameError> {
    let query = query_of(alloc, asked)?;
    let soa = soa(alloc, ttl, minimum)?;
    Ok(NoRecords {
        query,
        soa: Some(Boxed::new(alloc, soa)?),
        ns: None,
        response_code: ResponseCode::NXDomain,
        authorities: Records::empty(alloc),
    })
}

fn response(alloc: Global, writing: Writing<'_>) -> Result<Result<Message, NetError>, NameError> {
    let asked = writing.asked;
    match writing.told {
        Told::Answer(ttl) => Ok(Ok(message(alloc, asked, ttl)?)),
        Told::Denial { ttl, minimum } => {
            let found = denial(alloc, asked, ttl, minimum)?;
            Ok(Err(NetError::Dns(DnsError::NoRecordsFound(found))))
        }
        Told::Timeout => Ok(Err(NetError::Timeout)),
    }
}

fn write(alloc: Global, cache: &mut ResponseCache, writing: Writing<'_>) -> Result<(), NameError> {
    let query = query_of(alloc, writing.asked)?;
    let response = response(alloc, writing)?;
    let Writing {
        now,
        is_clamped,
        line,
        ..
    } = writing;
    cache.upsert_told(alloc, query, response, line, now, is_clamped)?;
    Ok(())
}

/// What is seen of a value that is then let go: to keep one of a large enum in a body is dear to prove.
trait Sight: Drop {
    fn sight(&self) -> Seen;
}

fn seen<T: Sight>(value: T) -> Seen {
    value.sight()
}

fn seen_of(response: &Result<Message, NetError>, line: u64) -> Seen {
    match response {
        Ok(message) => match message.answers.items() {
            [first] => Seen::Answer {
                ttl: first.ttl,
                line,
            },
            _ => Seen::Bad,
        },
        Err(NetError::Dns(DnsError::NoRecordsFound(found))) => match &found.soa {
            Some(soa) => Seen::Denial {
                ttl: soa.get().ttl,
                line,
            },
            None => Seen::Bad,
        },
        Err(_) => Seen::Bad,
    }
}

impl Sight for Option<CachedResponse> {
    fn sight(&self) -> Seen {
        match self {
            Some(found) => seen_of(&found.response, found.source),
            None => Seen::Absent,
        }
    }
}

fn read(
    alloc: Global,
    cache: &ResponseCache,
    asked: Asked<'_>,
    now: u64,
) -> Result<Seen, NameError> {
    let query = query_of(alloc, asked)?;
    let seen = seen(cache.find(alloc, &query, now)?);
    if seen == Seen::Absent && cache.has(&query) {
        return Ok(Seen::Expired);
    }
    Ok(seen)
}

/// Does what a line says.
fn step(alloc: Global, cache: &mut ResponseCache, step: Step<'_>) -> Result<Seen, NameError> {
    match step {
        Step::Size(size) => *cache = new(alloc, size)?,
        Step::Copy => *cache = cache.try_clone(alloc)?,
        Step::Write(writing) => write(alloc, cache, writing)?,
        Step::Read { asked, now } => return read(alloc, cache, asked, now),
        Step::Bad => return Ok(Seen::Bad),
    }
    Ok(Seen::Entries(cache.entry_count()))
}

/// The same, where a name that is none makes the line a bad one.
fn seen_after(alloc: Global, cache: &mut ResponseCache, said: Step<'_>) -> Result<Seen, NoMemory> {
    match step(alloc, cache, said) {
        Ok(seen) => Ok(seen),
        Err(NameError::NoMemory) => Err(NoMemory),
        Err(_) => Ok(Seen::Bad),
    }
}

/// A line that answers each line.
pub fn answer(alloc: Global, given: &[u8]) -> Result<String, NoMemory> {
    let mut cache = new(alloc, 0)?;
    let mut out = String::new(alloc);
    let mut line: u64 = 0;
    for text in std::str::from_utf8(given).unwrap_or("").lines() {
        line = line.saturating_add(1);
        let said = step_of(text, line);
        let seen = seen_after(alloc, &mut cache, said)?;
        put_line(&mut out, seen)?;
    }
    Ok(out)
}
