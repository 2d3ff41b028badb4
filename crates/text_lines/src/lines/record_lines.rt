//! The lines of records, each read on its own.
ghost use Rattle.std.specs.Prelude.{◌≡◌, IsTrue, Some, refl};
ghost use Rattle.dns_core.specs.Record.{is_typed};
ghost use Rattle.dns_core.specs.declared.record.RData.TheVariants as variant;
ghost use Rattle.text_lines.specs.Addresses.{ipv6_of};
ghost use Rattle.text_lines.specs.Fields.{Gives, GivesFields, field, whole};
ghost use Rattle.text_lines.specs.Hex.{bytes_of};
ghost use Rattle.text_lines.specs.Names.{full_name};
ghost use Rattle.text_lines.specs.Numbers.{ipv4_of};
ghost use Rattle.text_lines.specs.Fields.{wide_field};
ghost use Rattle.text_lines.specs.RecordLines.{record_head, soa_lives, soa_numbers, soa_of, signature_of, data_of, record_from, record_of_data, record_of};

use crate::words::{LineError, Words};
use dns_core::{Boxed, DnsClass, Name, RData, Record, RecordType, Soa};
use std::alloc::Global;

fn wide(words: &mut Words) -> Result<u32, LineError>
    ensures { GivesFields result words.new (wide_field words.old) }
{
    let number = words.number(0, 4_294_967_295)?;
    Ok(number as u32)
}

#[tactic(auto, unfolding(crate::specs::RecordLines::record_head))]
fn record_head(
    alloc: Global,
    words: &mut Words,
) -> Result<(Name, (u32, (DnsClass, RecordType))), LineError>
    ensures { GivesFields result words.new (record_head words.old) }
{
    let name = words.full_name(alloc)?;
    let ttl = wide(words)?;
    let dns_class = words.dns_class()?;
    let record_type = words.record_type()?;
    Ok((name, (ttl, (dns_class, record_type))))
}

// ---- the data of each type

fn ipv4_data(words: &mut Words) -> Result<RData, LineError>
    ensures { Gives result (whole (field ipv4_of) variant.A words.old) }
{
    let address = words.ipv4()?;
    words.end()?;
    Ok(RData::A(address))
}

fn ipv6_data(alloc: Global, words: &mut Words) -> Result<RData, LineError>
    ensures { Gives result (whole (field ipv6_of) variant.AAAA words.old) }
{
    let address = words.ipv6(alloc)?;
    words.end()?;
    Ok(RData::AAAA(address))
}

fn server_data(alloc: Global, words: &mut Words) -> Result<RData, LineError>
    ensures { Gives result (whole (field full_name) variant.NS words.old) }
{
    let target = words.full_name(alloc)?;
    words.end()?;
    Ok(RData::NS(target))
}

fn alias_data(alloc: Global, words: &mut Words) -> Result<RData, LineError>
    ensures { Gives result (whole (field full_name) variant.CNAME words.old) }
{
    let target = words.full_name(alloc)?;
    words.end()?;
    Ok(RData::CNAME(target))
}

/// The last three numbers of an SOA.
fn soa_lives(words: &mut Words) -> Result<(u32, (u32, u32)), LineError>
    ensures { GivesFields result words.new (soa_lives words.old) }
{
    let retry = wide(words)?;
    let expire = wide(words)?;
    let minimum = wide(words)?;
    Ok((retry, (expire, minimum)))
}

/// The five numbers of an SOA.
fn soa_numbers(words: &mut Words) -> Result<(u32, (u32, (u32, (u32, u32)))), LineError>
    ensures { GivesFields result words.new (soa_numbers words.old) }
{
    let serial = wide(words)?;
    let refresh = wide(words)?;
    let lives = soa_lives(words)?;
    Ok((serial, (refresh, lives)))
}

#[tactic(auto, unfolding(crate::specs::RecordLines::soa_of))]
fn soa_data(alloc: Global, words: &mut Words) -> Result<RData, LineError>
    ensures { Gives result (soa_of words.old) }
{
    let mname = words.full_name(alloc)?;
    let rname = words.full_name(alloc)?;
    let (serial, (refresh, (retry, (expire, minimum)))) = soa_numbers(words)?;
    words.end()?;
    let soa = Soa {
        mname,
        rname,
        serial,
        refresh,
        retry,
        expire,
        minimum,
    };
    Ok(RData::SOA(Boxed::new(alloc, soa)?))
}

/// The type that is covered, and the rest as bytes.
#[tactic(auto, unfolding(crate::specs::RecordLines::signature_of))]
fn signature_data(alloc: Global, words: &mut Words) -> Result<RData, LineError>
    ensures { Gives result (signature_of words.old) }
{
    let covered = words.record_type()?;
    let rest = words.bytes(alloc)?;
    words.end()?;
    Ok(RData::RRSIG { covered, rest })
}

fn bytes_data(alloc: Global, words: &mut Words) -> Result<RData, LineError>
    ensures { Gives result (whole (field bytes_of) variant.Opaque words.old) }
{
    let bytes = words.bytes(alloc)?;
    words.end()?;
    Ok(RData::Opaque(bytes))
}

/// The rest of a record line, which is the data of its type.
#[tactic(auto, unfolding(crate::specs::RecordLines::data_of))]
fn data(alloc: Global, words: &mut Words, record_type: RecordType) -> Result<RData, LineError>
    ensures { Gives result (data_of record_type words.old) }
{
    match record_type.code {
        1 => ipv4_data(words),
        2 => server_data(alloc, words),
        5 => alias_data(alloc, words),
        6 => soa_data(alloc, words),
        28 => ipv6_data(alloc, words),
        46 => signature_data(alloc, words),
        _ => bytes_data(alloc, words),
    }
}

/// A record, the type of which is that of its data.
fn record_from(
    name: Name,
    ttl: u32,
    dns_class: DnsClass,
    record_type: RecordType,
    rdata: RData,
) -> Record
    requires { IsTrue (is_typed record_type rdata) }
    ensures { Some result ≡ record_of_data (name, (ttl, (dns_class, record_type))) rdata }
{
    Record {
        name,
        ttl,
        dns_class,
        record_type,
        rdata,
    }
}

/// The record that a line spells.
#[tactic(auto, unfolding(crate::specs::RecordLines::records_of))]
pub fn record_line(alloc: Global, line: &[u8]) -> Result<Record, LineError>
    ensures { Gives result (record_of line.now) }
{
    let mut words = Words::new(line);
    let (name, (ttl, (dns_class, record_type))) = record_head(alloc, &mut words)?;
    let rdata = data(alloc, &mut words, record_type)?;
    let record = record_from(name, ttl, dns_class, record_type, rdata);
    Ok(record)
}
