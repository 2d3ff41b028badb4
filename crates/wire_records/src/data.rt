//! The data of records (RFC 1035 section 3.3, RFC 3596 section 2.2, RFC 4034 section 3.1): so many bytes at
//! the front of a rest of the message.
ghost use Rattle.std.specs.Prelude.{◌≡◌, ◌≤◌, ◌++◌, length, Ok, IfOk};
ghost use Rattle.wire_names.specs.Kept.{IsRest, AreKept};
ghost use Rattle.wire_names.specs.Names.{written};
ghost use Rattle.wire_names.specs.Reading.{Gives};
ghost use Rattle.wire_records.specs.Reading.{target_of, written_of, exchange_of, lives_of, soa_of, signature_of, address4_of, address6_of, kept_of, named_of, data_of};

use crate::numbers::read_four;
use dns_core::{Boxed, Bytes, Name, RData, RecordType, Soa};
use std::alloc::Global;
use std::net::{Ipv4Addr, Ipv6Addr};
use wire_names::{KeptNames, WireError, first_of, read_name, write_name};

/// A name that fills the data.
fn read_target(
    alloc: Global,
    message: &[u8],
    count: usize,
    bytes: &[u8],
    kept: &mut KeptNames,
) -> Result<Name, WireError>
    requires count { count ≤ length bytes.now }
    requires rest { IsRest message.now bytes.now }
    requires kept { AreKept message.now kept.old }
    ensures exact { Gives (λ name. name) result (target_of message.now count bytes.now) }
    ensures kept { AreKept message.now kept.new }
{
    let (name, rest) = read_name(alloc, message, bytes, kept)?;
    if rest.len() == bytes.len() - count {
        Ok(name)
    } else {
        Err(WireError::BadData)
    }
}

fn write_out(alloc: Global, front: &[u8], name: &Name) -> Result<Vec<u8>, WireError>
    ensures { Gives (λ bytes. bytes.items) result (Ok (front.now ++ written name.now.labels)) }
{
    let mut bytes = Vec::from_slice(alloc, front)?;
    write_name(&mut bytes, name)?;
    Ok(bytes)
}

/// A name that fills the data, written out.
fn read_written(
    alloc: Global,
    message: &[u8],
    count: usize,
    bytes: &[u8],
    kept: &mut KeptNames,
) -> Result<Vec<u8>, WireError>
    requires count { count ≤ length bytes.now }
    requires rest { IsRest message.now bytes.now }
    requires kept { AreKept message.now kept.old }
    ensures exact { Gives (λ v. v.items) result (written_of message.now count bytes.now) }
    ensures kept { AreKept message.now kept.new }
{
    let name = read_target(alloc, message, count, bytes, kept)?;
    let bytes = write_out(alloc, &[], &name)?;
    Ok(bytes)
}

/// A preference and a name that fills the other data, written out.
fn read_exchange(
    alloc: Global,
    message: &[u8],
    count: usize,
    bytes: &[u8],
    kept: &mut KeptNames,
) -> Result<Vec<u8>, WireError>
    requires count { count ≤ length bytes.now }
    requires rest { IsRest message.now bytes.now }
    requires kept { AreKept message.now kept.old }
    ensures exact { Gives (λ v. v.items) result (exchange_of message.now count bytes.now) }
    ensures kept { AreKept message.now kept.new }
{
    if count < 2 {
        return Err(WireError::BadData);
    }
    let (preference, after) = bytes.split_at(2);
    let name = read_target(alloc, message, count - 2, after, kept)?;
    let bytes = write_out(alloc, preference, &name)?;
    Ok(bytes)
}

/// The numbers of an SOA record.
#[derive(Clone, Copy, Debug)]
struct Lives {
    serial: u32,
    refresh: u32,
    retry: u32,
    expire: u32,
    minimum: u32,
}

fn read_lives(bytes: &[u8]) -> Result<(Lives, &[u8]), WireError>
    ensures { Gives (λ x. (let l = x.0 in (l.serial, (l.refresh, (l.retry, (l.expire, l.minimum)))), x.1.now)) result (lives_of bytes.now) }
{
    let (serial, after) = read_four(bytes)?;
    let (refresh, after) = read_four(after)?;
    let (retry, after) = read_four(after)?;
    let (expire, after) = read_four(after)?;
    let (minimum, rest) = read_four(after)?;
    let lives = Lives {
        serial,
        refresh,
        retry,
        expire,
        minimum,
    };
    Ok((lives, rest))
}

fn read_soa(
    alloc: Global,
    message: &[u8],
    count: usize,
    bytes: &[u8],
    kept: &mut KeptNames,
) -> Result<Soa, WireError>
    requires count { count ≤ length bytes.now }
    requires rest { IsRest message.now bytes.now }
    requires kept { AreKept message.now kept.old }
    ensures exact { Gives (λ soa. soa) result (soa_of message.now count bytes.now) }
    ensures kept { AreKept message.now kept.new }
{
    let (mname, second) = read_name(alloc, message, bytes, kept)?;
    let (rname, numbers) = read_name(alloc, message, second, kept)?;
    if count < 20 || numbers.len() != bytes.len() - (count - 20) {
        return Err(WireError::BadData);
    }
    let (lives, _rest) = read_lives(numbers)?;
    Ok(Soa {
        mname,
        rname,
        serial: lives.serial,
        refresh: lives.refresh,
        retry: lives.retry,
        expire: lives.expire,
        minimum: lives.minimum,
    })
}

fn read_signature(alloc: Global, held: &[u8]) -> Result<RData, WireError>
    ensures { Gives (λ d. d) result (signature_of held.now) }
{
    let Some((high, after)) = first_of(held) else {
        return Err(WireError::BadData);
    };
    let Some((low, rest)) = first_of(after) else {
        return Err(WireError::BadData);
    };
    let rest = Bytes::new(Vec::from_slice(alloc, rest)?);
    let covered = RecordType {
        code: 256 * high as u16 + low as u16,
    };
    Ok(RData::RRSIG { covered, rest })
}

fn read_address4(held: &[u8]) -> Result<RData, WireError>
    ensures { Gives (λ d. d) result (address4_of held.now) }
{
    match <[u8; 4]>::try_from(held) {
        Ok(octets) => Ok(RData::A(Ipv4Addr::from_octets(octets))),
        Err(_e) => Err(WireError::BadData),
    }
}

fn read_address6(held: &[u8]) -> Result<RData, WireError>
    ensures { Gives (λ d. d) result (address6_of held.now) }
{
    match <[u8; 16]>::try_from(held) {
        Ok(octets) => Ok(RData::AAAA(Ipv6Addr::from_octets(octets))),
        Err(_e) => Err(WireError::BadData),
    }
}

/// The data of the types that have no variant of their own: names in PTR and MX are written out.
#[tactic(auto, unfolding(crate::specs::Reading::kept_of))]
fn read_kept(
    alloc: Global,
    message: &[u8],
    code: u16,
    count: usize,
    bytes: &[u8],
    kept: &mut KeptNames,
) -> Result<Vec<u8>, WireError>
    requires count { count ≤ length bytes.now }
    requires rest { IsRest message.now bytes.now }
    requires kept { AreKept message.now kept.old }
    ensures exact { Gives (λ v. v.items) result (kept_of message.now code count bytes.now) }
    ensures kept { AreKept message.now kept.new }
{
    if code == 12 {
        return read_written(alloc, message, count, bytes, kept);
    }
    if code == 15 {
        return read_exchange(alloc, message, count, bytes, kept);
    }
    let (held, _) = bytes.split_at(count);
    Ok(Vec::from_slice(alloc, held)?)
}

#[tactic(auto, unfolding(crate::specs::Reading::named_of))]
fn read_named(
    alloc: Global,
    message: &[u8],
    code: u16,
    count: usize,
    bytes: &[u8],
    kept: &mut KeptNames,
) -> Result<RData, WireError>
    requires count { count ≤ length bytes.now }
    requires rest { IsRest message.now bytes.now }
    requires kept { AreKept message.now kept.old }
    ensures exact { Gives (λ d. d) result (named_of message.now code count bytes.now) }
    ensures kept { AreKept message.now kept.new }
{
    if code == 2 {
        let name = read_target(alloc, message, count, bytes, kept)?;
        return Ok(RData::NS(name));
    }
    if code == 5 {
        let name = read_target(alloc, message, count, bytes, kept)?;
        return Ok(RData::CNAME(name));
    }
    if code == 6 {
        let soa = read_soa(alloc, message, count, bytes, kept)?;
        return Ok(RData::SOA(Boxed::new(alloc, soa)?));
    }
    let held = read_kept(alloc, message, code, count, bytes, kept)?;
    Ok(RData::Opaque(Bytes::new(held)))
}

/// The data of a type: `count` bytes at the front of these.
#[tactic(auto, unfolding(crate::specs::Reading::data_of))]
pub(crate) fn read_data(
    alloc: Global,
    message: &[u8],
    code: u16,
    count: usize,
    bytes: &[u8],
    kept: &mut KeptNames,
) -> Result<RData, WireError>
    requires count { count ≤ length bytes.now }
    requires rest { IsRest message.now bytes.now }
    requires kept { AreKept message.now kept.old }
    ensures exact { Gives (λ d. d) result (data_of message.now code count bytes.now) }
    ensures kept { AreKept message.now kept.new }
{
    let (held, _) = bytes.split_at(count);
    if code == 1 {
        return read_address4(held);
    }
    if code == 28 {
        return read_address6(held);
    }
    if code == 46 {
        return read_signature(alloc, held);
    }
    read_named(alloc, message, code, count, bytes, kept)
}
