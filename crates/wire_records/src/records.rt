//! Records (RFC 1035 section 4.1.3), and the OPT record among them (RFC 6891 section 6.1.2).
ghost use Rattle.std.specs.Prelude.{◌≡◌, ◌≤◌, length, Ok, IfOk, IsTrue, refl};
ghost use Rattle.dns_core.specs.Record.{is_typed};
ghost use Rattle.wire_names.specs.Kept.{IsRest, AreKept};
ghost use Rattle.wire_names.specs.Reading.{Gives};
ghost use Rattle.wire_records.specs.Reading.{head_of, fixed_of, typed_record, body_of, record_of, opt_of, extra_of};

use crate::data::read_data;
use crate::edns::{Edns, Extra};
use crate::numbers::{read_four, read_two};
use dns_core::{Bytes, DnsClass, Name, RData, Record, RecordType};
use std::alloc::Global;
use wire_names::{KeptNames, WireError, read_name};

/// The owner and the type of a record.
fn read_head<'a>(
    alloc: Global,
    message: &[u8],
    bytes: &'a [u8],
    kept: &mut KeptNames,
) -> Result<(Name, u16, &'a [u8]), WireError>
    requires rest { IsRest message.now bytes.now }
    requires kept { AreKept message.now kept.old }
    ensures exact { Gives (λ x. ((x.0, x.1), x.2.now)) result (head_of message.now bytes.now) }
    ensures rest { IfOk result (λ x. IsRest message.now x.2.now) }
    ensures kept { AreKept message.now kept.new }
{
    let (name, after) = read_name(alloc, message, bytes, kept)?;
    let (code, rest) = read_two(after)?;
    Ok((name, code, rest))
}

/// What stands between the type of a record and its data.
#[derive(Clone, Copy, Debug)]
struct Fixed {
    class: u16,
    ttl: u32,
    count: usize,
}

fn read_fixed(bytes: &[u8]) -> Result<(Fixed, &[u8]), WireError>
    ensures exact { Gives (λ x. ((x.0.class, (x.0.ttl, x.0.count)), x.1.now)) result (fixed_of bytes.now) }
    ensures within { IfOk result (λ x. x.0.count ≤ length x.1.now) }
{
    let (class, after) = read_two(bytes)?;
    let (ttl, after) = read_four(after)?;
    let (count, rest) = read_two(after)?;
    let count = count as usize;
    if rest.len() < count {
        return Err(WireError::Short);
    }
    Ok((Fixed { class, ttl, count }, rest))
}

fn record_from(
    name: Name,
    ttl: u32,
    dns_class: DnsClass,
    record_type: RecordType,
    rdata: RData,
) -> Record
    requires { IsTrue (is_typed record_type rdata) }
    ensures { typed_record name ttl dns_class record_type rdata (is_typed record_type rdata) refl ≡ Ok result }
{
    Record {
        name,
        ttl,
        dns_class,
        record_type,
        rdata,
    }
}

/// The record of this owner and type.
fn read_body<'a>(
    alloc: Global,
    message: &[u8],
    name: Name,
    code: u16,
    bytes: &'a [u8],
    kept: &mut KeptNames,
) -> Result<(Record, &'a [u8]), WireError>
    requires rest { IsRest message.now bytes.now }
    requires kept { AreKept message.now kept.old }
    ensures exact { Gives (λ x. (x.0, x.1.now)) result (body_of message.now name code bytes.now) }
    ensures rest { IfOk result (λ x. IsRest message.now x.1.now) }
    ensures kept { AreKept message.now kept.new }
{
    let (fixed, data) = read_fixed(bytes)?;
    let rdata = read_data(alloc, message, code, fixed.count, data, kept)?;
    let (_, rest) = data.split_at(fixed.count);
    let dns_class = DnsClass { code: fixed.class };
    let record_type = RecordType { code };
    let record = record_from(name, fixed.ttl, dns_class, record_type, rdata);
    Ok((record, rest))
}

/// The record at the front of `bytes`, a rest of the message in a section that has no OPT record, and what
/// follows it.
pub fn read_record<'a>(
    alloc: Global,
    message: &[u8],
    bytes: &'a [u8],
    kept: &mut KeptNames,
) -> Result<(Record, &'a [u8]), WireError>
    requires rest { IsRest message.now bytes.now }
    requires kept { AreKept message.now kept.old }
    ensures exact { Gives (λ x. (x.0, x.1.now)) result (record_of message.now bytes.now) }
    ensures rest { IfOk result (λ x. IsRest message.now x.1.now) }
    ensures kept { AreKept message.now kept.new }
{
    let (name, code, after) = read_head(alloc, message, bytes, kept)?;
    if code == 41 {
        return Err(WireError::BadOpt);
    }
    read_body(alloc, message, name, code, after, kept)
}

fn read_opt(alloc: Global, bytes: &[u8]) -> Result<(Extra, &[u8]), WireError>
    ensures { Gives (λ x. (x.0, x.1.now)) result (opt_of bytes.now) }
{
    let (fixed, data) = read_fixed(bytes)?;
    let (options, rest) = data.split_at(fixed.count);
    let options = Bytes::new(Vec::from_slice(alloc, options)?);
    let edns = Edns {
        payload: fixed.class,
        version: (fixed.ttl / 65536 % 256) as u8,
        dnssec_ok: fixed.ttl % 65536 >= 32768,
        options,
    };
    Ok((Extra::Opt((fixed.ttl / 16777216) as u8, edns), rest))
}

/// The record at the front of `bytes`, a rest of the message in the additional section, and what follows it.
/// `seen` tells whether an OPT record came before.
pub fn read_extra<'a>(
    alloc: Global,
    message: &[u8],
    seen: bool,
    bytes: &'a [u8],
    kept: &mut KeptNames,
) -> Result<(Extra, &'a [u8]), WireError>
    requires rest { IsRest message.now bytes.now }
    requires kept { AreKept message.now kept.old }
    ensures exact { Gives (λ x. (x.0, x.1.now)) result (extra_of seen message.now bytes.now) }
    ensures rest { IfOk result (λ x. IsRest message.now x.1.now) }
    ensures kept { AreKept message.now kept.new }
{
    let (name, code, after) = read_head(alloc, message, bytes, kept)?;
    if code == 41 {
        if seen || !name.labels().is_empty() {
            return Err(WireError::BadOpt);
        }
        return read_opt(alloc, after);
    }
    let (plain, rest) = read_body(alloc, message, name, code, after, kept)?;
    Ok((Extra::Plain(plain), rest))
}
