//! What a world answers to a question, whoever is asked.
ghost use Rattle.std.specs.Prelude.{◌≡◌, ◌==◌, [], length, filter, IfOk, IfSome, IfNone, Some, None};
ghost use Rattle.resolution.specs.Records.{cname_target};
ghost use Rattle.resolution.specs.Following.{is_owned};
ghost use Rattle.resolution.specs.Answering.{with_name};
ghost use Rattle.zone_worlds.specs.Index.{IsIndex};
ghost use Rattle.zone_worlds.specs.Answer.{alias_for, next_alias_for, Leads, NoWay, data_of, found, after, Answers};

use crate::index::Index;
use crate::way::Way;
use dns_core::{Items, Name, NoMemory, Query, Record, RecordType, TryClone};
use std::alloc::Global;
use zone_rules::{Alias, World, WorldAnswer, Zone, alias_in, is_met};

/// The alias of a name in that zone. A question for CNAME asks for the alias itself.
fn alias_for<'w>(
    alloc: Global,
    world: &'w World,
    index: &Index,
    name: &Name,
    query: &Query,
) -> Result<Option<Alias<'w>>, NoMemory>
    requires { IsIndex world.now index.now }
    ensures some { IfOk result (λ found. IfSome found (λ alias. alias_for world.now (with_name name.now query.now) ≡ Some alias.record.now)) }
    ensures leads { IfOk result (λ found. IfSome found (λ alias. cname_target alias.record.now ≡ Some alias.target.now)) }
    ensures none { IfOk result (λ found. IfNone found (alias_for world.now (with_name name.now query.now) ≡ None)) }
{
    if query.query_type.code == 5 {
        return Ok(None);
    }
    match index.zone_of(alloc, world, name, query)? {
        Some(zone) => Ok(alias_in(zone, name)),
        None => Ok(None),
    }
}

fn next_alias_for<'w>(
    alloc: Global,
    world: &'w World,
    index: &Index,
    query: &Query,
    met: &[Name],
    name: &Name,
) -> Result<Option<Alias<'w>>, NoMemory>
    requires { IsIndex world.now index.now }
    ensures some { IfOk result (λ found. IfSome found (λ alias. next_alias_for world.now query.now met.now name.now ≡ Some alias.record.now)) }
    ensures leads { IfOk result (λ found. IfSome found (λ alias. cname_target alias.record.now ≡ Some alias.target.now)) }
    ensures none { IfOk result (λ found. IfNone found (next_alias_for world.now query.now met.now name.now ≡ None)) }
{
    if is_met(met, name) {
        Ok(None)
    } else {
        alias_for(alloc, world, index, name, query)
    }
}

/// The aliases of a question to their end, nothing where a name repeats.
pub(crate) fn way_of(
    alloc: Global,
    world: &World,
    index: &Index,
    query: &Query,
) -> Result<Option<Way>, NoMemory>
    requires { IsIndex world.now index.now }
    ensures some { IfOk result (λ found. IfSome found (λ way. Leads world.now query.now [] query.now.name way.aliases.items way.names.items way.last)) }
    ensures none { IfOk result (λ found. IfNone found (NoWay world.now query.now [] query.now.name)) }
{
    let mut way = Way::begin(alloc, &query.name)?;
    'way: while let Some(alias) = next_alias_for(
        alloc,
        world,
        index,
        query,
        way.names.as_slice(),
        &way.last,
    )? {
        way.follow(alloc, alias.record, alias.target)?;
    }
    if is_met(way.names.as_slice(), &way.last) {
        return Ok(None);
    }
    way.end(alloc)?;
    Ok(Some(way))
}

/// Whether a record is of the very type at the name: ANY stands for no other type here.
fn is_owned(r: &Record, name: &Name, asked: RecordType) -> bool
    ensures { result ≡ is_owned asked name.now r.now }
{
    r.name == *name && r.record_type.code == asked.code
}

/// The records of the very type at a name.
fn records_at(
    alloc: Global,
    zone: &Zone,
    name: &Name,
    asked: RecordType,
) -> Result<Vec<Record>, NoMemory>
    ensures { IfOk result (λ rs. rs.items ≡ filter (is_owned asked name.now) zone.now.records) }
{
    let mut found = Vec::new(alloc);
    for r in zone.records.items() {
        if is_owned(r, name, asked) {
            found.push(r.try_clone(alloc)?)?;
        }
    }
    Ok(found)
}

fn data_of(records: Vec<Record>) -> WorldAnswer
    ensures { result ≡ data_of records.items }
{
    if records.is_empty() {
        WorldAnswer::NoData
    } else {
        WorldAnswer::Records(Items::new(records))
    }
}

/// The answer at a name without an alias.
fn found(
    alloc: Global,
    world: &World,
    index: &Index,
    name: &Name,
    query: &Query,
) -> Result<WorldAnswer, NoMemory>
    requires { IsIndex world.now index.now }
    ensures { IfOk result (λ answer. answer ≡ found world.now (with_name name.now query.now)) }
{
    if !index.exists(world, name) {
        return Ok(WorldAnswer::NxDomain);
    }
    let Some(zone) = index.zone_of(alloc, world, name, query)? else {
        return Ok(WorldAnswer::NoData);
    };
    let records = records_at(alloc, zone, name, query.query_type)?;
    Ok(data_of(records))
}

/// The aliases that led to an answer, followed by its records.
fn after(aliases: Vec<Record>, answer: WorldAnswer) -> Result<WorldAnswer, NoMemory>
    ensures { IfOk result (λ whole. whole ≡ after aliases.items answer) }
{
    match answer {
        WorldAnswer::Records(records) => {
            let mut whole = aliases;
            let mut rest = records.into_vec();
            whole.append(&mut rest)?;
            Ok(WorldAnswer::Records(Items::new(whole)))
        }
        WorldAnswer::NxDomain => Ok(WorldAnswer::NxDomain),
        WorldAnswer::NoData => Ok(WorldAnswer::NoData),
    }
}

/// What a world answers to a question, found by its index.
pub(crate) fn answer_of(
    alloc: Global,
    world: &World,
    index: &Index,
    query: &Query,
) -> Result<Option<WorldAnswer>, NoMemory>
    requires { IsIndex world.now index.now }
    ensures { IfOk result (Answers world.now query.now) }
{
    let Some(way) = way_of(alloc, world, index, query)? else {
        return Ok(None);
    };
    let at_end = found(alloc, world, index, &way.last, query)?;
    let answer = after(way.aliases, at_end)?;
    Ok(Some(answer))
}

/// What the world answers to a question: the aliases of its name, followed by the answer at their end.
/// There is none exactly where the aliases do not end. Makes an index of the world for one question.
pub fn world_answer(
    alloc: Global,
    world: &World,
    query: &Query,
) -> Result<Option<WorldAnswer>, NoMemory>
    ensures { IfOk result (Answers world.now query.now) }
{
    let index = Index::of(alloc, world)?;
    answer_of(alloc, world, &index, query)
}
