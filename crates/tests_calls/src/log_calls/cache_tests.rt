//! The cache of responses, with the log entries that told them, and what a response lends.

use dns_core::{DnsClass, Message, NameError, NetError, NoMemory, Query, RecordType, TryClone};
use resolver_cache::{CachedResponse, ResponseCache, ReversedTtl, read_message};
use resolver_settings::{AccessControlSet, IpNet, TtlConfig};
use std::alloc::Global;
use std::net::IpAddr;
use std::test::Fail;
use tests_samples::{
    Machine, Sight, answer, comes_to, domain, filter, ip, is_wanted, query, query_of, referral,
    runs, seen, v4,
};
use walk_response::collect_glue;

/// How a response is written: for as long as it says, no longer than the one that it repeats, or so
/// and by the log entry of a number.
#[derive(Clone, Copy)]
enum How {
    Plain,
    Clamped,
    Told(u64),
}

/// Writes an answer with this TTL for `a.` at a moment, or reads it with its source.
#[derive(Clone, Copy)]
enum Call {
    Write(How, u32),
    Read,
    ReadCopy,
    Find,
    InClass(DnsClass),
}

/// What is seen of a call: the TTL that is read, and the source.
#[derive(Clone, Copy, Debug, PartialEq)]
enum Seen {
    Written,
    Nothing,
    Ttl(u32),
    From(u64, u32),
    Is(bool),
}

fn response(alloc: Global, ttl: u32) -> Result<Result<Message, NetError>, NameError> {
    Ok(Ok(answer(alloc, "a.", ttl, v4(7))?))
}

fn write(
    alloc: Global,
    cache: &mut ResponseCache,
    how: How,
    query: Query,
    response: Result<Message, NetError>,
    now: u64,
) -> Result<(), NoMemory> {
    match how {
        How::Plain => cache.insert(alloc, query, response, now),
        How::Clamped => cache.upsert_clamped_ttl(alloc, query, response, now, true),
        How::Told(source) => cache.upsert_told(alloc, query, response, source, now, true),
    }
}

/// Writes an answer with this TTL.
fn writes(
    alloc: Global,
    cache: &mut ResponseCache,
    how: How,
    ttl: u32,
    now: u64,
) -> Result<Seen, NameError> {
    let asked = query(alloc, "a.")?;
    write(alloc, cache, how, asked, response(alloc, ttl)?, now)?;
    Ok(Seen::Written)
}

/// The TTL of the first answer of a message, and 0 where there is none.
fn ttl_of(message: &Message) -> u32 {
    match message.answers.items() {
        [first, ..] => first.ttl,
        [] => 0,
    }
}

impl Sight<Seen> for Option<Result<Message, NetError>> {
    fn sight(&self) -> Seen {
        match self {
            Some(Ok(message)) => Seen::Ttl(ttl_of(message)),
            _ => Seen::Nothing,
        }
    }
}

impl Sight<Seen> for Option<CachedResponse> {
    fn sight(&self) -> Seen {
        match self {
            Some(
                CachedResponse {
                    response: Ok(message),
                    source,
                },
            ) => Seen::From(*source, ttl_of(message)),
            _ => Seen::Nothing,
        }
    }
}

fn read(alloc: Global, cache: &ResponseCache, now: u64) -> Result<Seen, NameError> {
    let asked = query(alloc, "a.")?;
    Ok(seen(cache.get(alloc, &asked, now)?))
}

fn read_of_copy(alloc: Global, cache: &ResponseCache, now: u64) -> Result<Seen, NameError> {
    let copy = cache.try_clone(alloc)?;
    read(alloc, &copy, now)
}

fn find(alloc: Global, cache: &ResponseCache, now: u64) -> Result<Seen, NameError> {
    let asked = query(alloc, "a.")?;
    Ok(seen(cache.find(alloc, &asked, now)?))
}

fn has(alloc: Global, cache: &ResponseCache, class: DnsClass) -> Result<Seen, NameError> {
    let asked = query_of(alloc, "A.", RecordType::A, class)?;
    Ok(Seen::Is(cache.has(&asked)))
}

impl Machine<Call, Seen> for ResponseCache {
    fn see(&mut self, alloc: Global, call: Call, now: u64) -> Result<Seen, NameError> {
        match call {
            Call::Write(how, ttl) => writes(alloc, self, how, ttl, now),
            Call::Read => read(alloc, self, now),
            Call::ReadCopy => read_of_copy(alloc, self, now),
            Call::Find => find(alloc, self, now),
            Call::InClass(class) => has(alloc, self, class),
        }
    }
}

/// A cache that is empty.
fn empty(alloc: Global) -> Result<ResponseCache, ReversedTtl> {
    ResponseCache::new(alloc, 8, TtlConfig::standard(alloc))
}

/// A response counts down. It is found in any case of its name, and in its class alone.
static READ: [(u64, Call, Seen); 6] = [
    (0, Call::Write(How::Plain, 300), Seen::Written),
    (1_000_000, Call::Read, Seen::Ttl(299)),
    (1_000_000, Call::ReadCopy, Seen::Ttl(299)),
    (1_000_000, Call::Find, Seen::From(0, 299)),
    (0, Call::InClass(DnsClass::IN), Seen::Is(true)),
    (0, Call::InClass(DnsClass::CH), Seen::Is(false)),
];

/// A repeated answer lives no longer.
static REPEATED: [(u64, Call, Seen); 4] = [
    (0, Call::Write(How::Clamped, 10), Seen::Written),
    (5_000_000, Call::Write(How::Clamped, 100), Seen::Written),
    (10_000_000, Call::Read, Seen::Ttl(95)),
    (10_000_001, Call::Read, Seen::Nothing),
];

/// A response is found with its source, and a repeated one brings its own.
static TOLD: [(u64, Call, Seen); 5] = [
    (0, Call::Write(How::Told(7), 60), Seen::Written),
    (2_000_000, Call::Find, Seen::From(7, 58)),
    (2_000_000, Call::Write(How::Told(9), 60), Seen::Written),
    (2_000_000, Call::Find, Seen::From(9, 60)),
    (60_000_001, Call::Find, Seen::Nothing),
];

#[test]
fn responses_are_written_and_found(rt: HostRuntime) -> Result<(), Fail> {
    let alloc = rt.alloc();
    runs(alloc, empty(alloc), &READ)?;
    runs(alloc, empty(alloc), &REPEATED)?;
    runs(alloc, empty(alloc), &TOLD)
}

/// The TTL of a message so many seconds after it was written with a TTL of 60.
fn lowered(alloc: Global, seconds: u64) -> Result<u32, NameError> {
    let message = answer(alloc, "a.", 60, v4(7))?;
    Ok(ttl_of(&read_message(alloc, &message, seconds, false)?))
}

/// Denies one address.
fn without(alloc: Global, denied: u8) -> Result<AccessControlSet, Fail> {
    Ok(filter(alloc, &[IpNet::new(ip(denied), 32)?], &[])?)
}

/// What a referral with this filter lends the way to `example.com.`.
fn lent(alloc: Global, filter: &AccessControlSet) -> Result<Vec<IpAddr>, NameError> {
    let name = domain(alloc, "example.com.")?;
    let message = referral(alloc, "example.com.", "ns.example.com.", v4(2))?;
    Ok(collect_glue(alloc, &message, &name, filter)?)
}

/// Whether it lends this address alone, where another is denied.
fn lends(alloc: Global, wanted: u8, denied: u8) -> Result<bool, Fail> {
    let found = lent(alloc, &without(alloc, denied)?)?;
    Ok(found.as_slice() == [ip(wanted)].as_slice())
}

#[test]
fn messages_are_lowered_and_lend_addresses(rt: HostRuntime) -> Result<(), Fail> {
    let alloc = rt.alloc();
    comes_to(lowered(alloc, 2), 58)?;
    is_wanted(lends(alloc, 2, 3)?, true)?;
    is_wanted(lends(alloc, 2, 2)?, false)
}
