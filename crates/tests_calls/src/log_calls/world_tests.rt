//! Calls on a world of one zone that no command makes: what an address tells, what the world answers and
//! whether a question is valid, by a scan, and its answer by an index. What the commands look up in a world
//! is shown by cases.

use dns_core::{
    DnsClass, Items, Message, NameError, NoMemory, Query, RecordType, Records, TryClone,
};
use std::alloc::Global;
use std::test::Fail;
use tests_samples::{
    address, authority, both, comes_to, domain, ip, name_server, put, query, query_of, v4,
};
use zone_worlds::{
    Host, IndexedWorld, World, WorldAnswer, Zone, told, valid_question, world_answer,
};

/// The authority of the root zone, its server, and the server's address.
fn put_records(alloc: Global, records: &mut Records) -> Result<(), NameError> {
    put(records, authority(alloc, ".", "ns."))?;
    put(records, name_server(alloc, ".", "ns."))?;
    put(records, address(alloc, "ns.", 60, v4(1)))
}

fn records(alloc: Global) -> Result<Records, NameError> {
    let mut records = Records::empty(alloc);
    put_records(alloc, &mut records)?;
    Ok(records)
}

fn root(alloc: Global) -> Result<Zone, NameError> {
    let (apex, records) = both(domain(alloc, "."), records(alloc))?;
    Ok(Zone { apex, records })
}

fn zones(alloc: Global) -> Result<Items<Zone>, NameError> {
    let mut zones = Items::empty(alloc);
    put(&mut zones, root(alloc))?;
    Ok(zones)
}

/// The host that serves the root zone.
fn host(alloc: Global) -> Result<Host, NameError> {
    let mut zones = Items::empty(alloc);
    zones.push(1)?;
    Ok(Host { ip: ip(1), zones })
}

fn hosts(alloc: Global) -> Result<Items<Host>, NameError> {
    let mut hosts = Items::empty(alloc);
    put(&mut hosts, host(alloc))?;
    Ok(hosts)
}

fn world(alloc: Global) -> Result<World, NameError> {
    let (zones, hosts) = both(zones(alloc), hosts(alloc))?;
    Ok(World {
        zones,
        hosts,
        chain: true,
        delay: 0,
    })
}

/// The code of a response, and how many answers it has.
fn told_by(message: &Message) -> (u16, usize) {
    (message.response_code.code, message.answers.len())
}

/// What the host tells.
fn tells(alloc: Global, world: &World, query: &Query) -> Result<(u16, usize), NoMemory> {
    let message = told(alloc, world, ip(1), query)?;
    Ok(told_by(&message))
}

fn count_of(answer: &Option<WorldAnswer>) -> Option<usize> {
    match answer {
        Some(WorldAnswer::Records(found)) => Some(found.len()),
        _ => None,
    }
}

/// How many records the world answers with.
fn answers(alloc: Global, world: &World, query: &Query) -> Result<Option<usize>, NoMemory> {
    let answer = world_answer(alloc, world, query)?;
    Ok(count_of(&answer))
}

/// The same of a copy of the world, by look-ups.
fn answers_by_index(
    alloc: Global,
    world: &World,
    query: &Query,
) -> Result<Option<usize>, NoMemory> {
    let indexed = IndexedWorld::new(alloc, world.try_clone(alloc)?)?;
    let answer = indexed.answer(alloc, query)?;
    Ok(count_of(&answer))
}

/// Whether the world answers that the name owns no record of the type.
fn denies(alloc: Global, world: &World, query: &Query) -> Result<bool, NoMemory> {
    let answer = world_answer(alloc, world, query)?;
    Ok(matches!(answer, Some(WorldAnswer::NoData)))
}

/// An address tells a question for ANY every record of the name, and the world answers it by those of this very type.
fn is_asked_for_any(alloc: Global, world: &World, query: &Query) -> Result<(), Fail> {
    comes_to(tells(alloc, world, query), (0, 2))?;
    comes_to(denies(alloc, world, query), true)?;
    comes_to(valid_question(alloc, world, 24, 24, query), false)
}

fn is_asked(alloc: Global, world: &World, query: &Query) -> Result<(), Fail> {
    comes_to(tells(alloc, world, query), (0, 1))?;
    comes_to(answers(alloc, world, query), Some(1))?;
    comes_to(answers_by_index(alloc, world, query), Some(1))?;
    comes_to(valid_question(alloc, world, 24, 24, query), true)
}

#[test]
fn a_world_is_asked_by_a_scan_and_answers_by_an_index(rt: HostRuntime) -> Result<(), Fail> {
    let alloc = rt.alloc();
    let (world, query) = both(world(alloc), query(alloc, "ns."))?;
    is_asked(alloc, &world, &query)
}

#[test]
fn any_is_told_all_records_and_answered_by_none(rt: HostRuntime) -> Result<(), Fail> {
    let alloc = rt.alloc();
    let any = query_of(alloc, ".", RecordType::ANY, DnsClass::IN);
    let (world, query) = both(world(alloc), any)?;
    is_asked_for_any(alloc, &world, &query)
}
