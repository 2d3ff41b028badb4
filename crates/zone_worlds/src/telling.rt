//! What an address tells for a question (RFC 1034 section 4.3.2).
ghost use Rattle.std.specs.Prelude.{◌≡◌, ◌==◌, ◌||◌, Bool, true, false, [], ◌∷◌, length, IfOk, IfSome, IfNone, Some, None};
ghost use Rattle.std.specs.Option.{option_copied};
ghost use Rattle.resolution.specs.Records.{cname_target};
ghost use Rattle.zone_rules.specs.Tree.{host_of, exists_in};
ghost use Rattle.zone_rules.specs.Choosing.{owned, alias_in};
ghost use Rattle.zone_worlds.specs.Telling.{zone_asked, child_of, reply, refusal, referral, negative, positive, alias_of, Follows, AnswersByAlias, IsByAlias, Replies, Tells};

use crate::way::Way;
use dns_core::{
    Items, Message, Name, NoMemory, Query, Record, RecordType, Records, ResponseCode, TryClone,
};
use std::alloc::Global;
use std::net::IpAddr;
use zone_rules::{
    Alias, Host, World, Zone, alias_in, first_cut, nearest, next_alias, owned, server_addresses,
    servers, soa_of, walked,
};

/// The deepest zone at or above the question's name that the address serves, for DS strictly above, where
/// it is known which host has the address.
pub(crate) fn zone_asked<'w>(
    world: &'w World,
    host: Option<&Host>,
    ip: IpAddr,
    query: &Query,
) -> Option<&'w Zone>
    requires { option_copied host ≡ host_of world.now ip }
    ensures { option_copied result ≡ zone_asked world.now ip query.now }
{
    if !query.name.is_fqdn() {
        return None;
    }
    match host {
        None => None,
        Some(host) => nearest(
            world.zones.items(),
            host.zones.items(),
            walked(&query.name, query),
        ),
    }
}

/// The highest zone below it on the way to that name.
fn child_of<'w>(world: &'w World, zone: &Zone, query: &Query) -> Option<&'w Zone>
    ensures { option_copied result ≡ child_of world.now zone.now query.now }
{
    let apex = zone.apex.labels().len();
    first_cut(world.zones.items(), apex, walked(&query.name, query))
}

pub(crate) fn refusal(alloc: Global, query: &Query) -> Result<Message, NoMemory>
    ensures { IfOk result (λ m. m ≡ refusal query.now) }
{
    Ok(Message {
        query: query.try_clone(alloc)?,
        response_code: ResponseCode::Refused,
        authoritative: false,
        truncation: false,
        answers: Items::empty(alloc),
        authorities: Items::empty(alloc),
        additionals: Items::empty(alloc),
    })
}

pub(crate) fn referral(alloc: Global, child: &Zone, query: &Query) -> Result<Message, NoMemory>
    ensures { IfOk result (λ m. m ≡ referral child.now query.now) }
{
    let authorities = servers(alloc, child, &child.apex)?;
    let additionals = server_addresses(alloc, child, &child.apex)?;
    Ok(Message {
        query: query.try_clone(alloc)?,
        response_code: ResponseCode::NoError,
        authoritative: false,
        truncation: false,
        answers: Items::empty(alloc),
        authorities,
        additionals,
    })
}

fn negative(
    alloc: Global,
    zone: &Zone,
    query: &Query,
    response_code: ResponseCode,
) -> Result<Message, NoMemory>
    ensures { IfOk result (λ m. m ≡ negative zone.now query.now response_code.code) }
{
    let authorities = soa_of(alloc, zone)?;
    Ok(Message {
        query: query.try_clone(alloc)?,
        response_code,
        authoritative: true,
        truncation: false,
        answers: Items::empty(alloc),
        authorities,
        additionals: Items::empty(alloc),
    })
}

fn answer(
    alloc: Global,
    query: &Query,
    answers: Records,
    additionals: Records,
) -> Result<Message, NoMemory>
    ensures { IfOk result (λ m. m ≡ reply query.now 0 true answers [] additionals) }
{
    Ok(Message {
        query: query.try_clone(alloc)?,
        response_code: ResponseCode::NoError,
        authoritative: true,
        truncation: false,
        answers,
        authorities: Items::empty(alloc),
        additionals,
    })
}

fn positive(
    alloc: Global,
    zone: &Zone,
    query: &Query,
    answers: Records,
) -> Result<Message, NoMemory>
    ensures { IfOk result (λ m. m ≡ positive zone.now query.now answers) }
{
    let additionals = if query.query_type.code == 2 {
        server_addresses(alloc, zone, &query.name)?
    } else {
        Items::empty(alloc)
    };
    answer(alloc, query, answers, additionals)
}

/// The aliases of the zone from a name on, and the name to which the last of them leads.
fn follow(alloc: Global, zone: &Zone, name: &Name) -> Result<Way, NoMemory>
    ensures { IfOk result (λ way. Follows zone.now [] name.now way.aliases.items way.last) }
{
    let mut way = Way::begin(alloc, name)?;
    'chain: while let Some(alias) = next_alias(zone, way.names.as_slice(), &way.last) {
        way.follow(alloc, alias.record, alias.target)?;
    }
    Ok(way)
}

/// The chain of aliases, and the records of the type at its end.
fn chained(alloc: Global, zone: &Zone, query: &Query) -> Result<Records, NoMemory>
    ensures { IfOk result (AnswersByAlias zone.now query.now true) }
{
    let mut chain = follow(alloc, zone, &query.name)?;
    let mut rest = owned(alloc, zone, &chain.last, query.query_type)?;
    chain.aliases.append(&mut rest)?;
    Ok(Items::new(chain.aliases))
}

fn alone(alloc: Global, zone: &Zone, query: &Query, alias: &Record) -> Result<Records, NoMemory>
    requires { alias_in zone.now query.now.name ≡ Some alias.now }
    ensures { IfOk result (AnswersByAlias zone.now query.now false) }
{
    let _zone = zone;
    let _query = query;
    let mut answers = Vec::new(alloc);
    answers.push(alias.try_clone(alloc)?)?;
    Ok(Items::new(answers))
}

fn by_alias(
    alloc: Global,
    zone: &Zone,
    query: &Query,
    chain: bool,
    alias: &Record,
) -> Result<Message, NoMemory>
    requires { alias_in zone.now query.now.name ≡ Some alias.now }
    ensures { IfOk result (IsByAlias zone.now query.now chain) }
{
    if chain {
        let answers = chained(alloc, zone, query)?;
        let whole = answer(alloc, query, answers, Items::empty(alloc))?;
        return Ok(whole);
    }
    let answers = alone(alloc, zone, query, alias)?;
    let single = answer(alloc, query, answers, Items::empty(alloc))?;
    Ok(single)
}

/// The alias by which the zone answers.
fn alias_of<'w>(zone: &'w Zone, query: &Query) -> Option<Alias<'w>>
    ensures some { IfSome result (λ alias. alias_of zone.now query.now ≡ Some alias.record.now) }
    ensures aliased { IfSome result (λ alias. alias_in zone.now query.now.name ≡ Some alias.record.now) }
    ensures none { IfNone result (alias_of zone.now query.now ≡ None) }
{
    let t = query.query_type.code;
    if t == 5 || t == 255 {
        None
    } else {
        alias_in(zone, &query.name)
    }
}

/// What the zone answers of itself, where it is known whether the name exists.
pub(crate) fn reply_of(
    alloc: Global,
    world: &World,
    zone: &Zone,
    query: &Query,
    exists: bool,
) -> Result<Message, NoMemory>
    requires { exists ≡ exists_in world.now query.now.name }
    ensures { IfOk result (Replies world.now zone.now query.now) }
{
    if !exists {
        return negative(alloc, zone, query, ResponseCode::NXDomain);
    }
    if let Some(alias) = alias_of(zone, query) {
        return by_alias(alloc, zone, query, world.chain, alias.record);
    }
    let found = owned(alloc, zone, &query.name, query.query_type)?;
    let answers = Items::new(found);
    if answers.is_empty() {
        return negative(alloc, zone, query, ResponseCode::NoError);
    }
    positive(alloc, zone, query, answers)
}

/// What an address tells for a question: a referral where a deeper zone lies on the way to the name,
/// else what the deepest zone that the address serves answers of itself, else REFUSED.
pub fn told(alloc: Global, world: &World, ip: IpAddr, query: &Query) -> Result<Message, NoMemory>
    ensures { IfOk result (Tells world.now ip query.now) }
{
    let Some(zone) = zone_asked(world, world.host(ip), ip, query) else {
        return refusal(alloc, query);
    };
    if let Some(child) = child_of(world, zone, query) {
        return referral(alloc, child, query);
    }
    reply_of(alloc, world, zone, query, world.exists(&query.name))
}
