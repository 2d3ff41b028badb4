//! How much room questions and records need that are written out: what is left of a room, if it is enough.
ghost use Rattle.std.specs.Prelude.{◌≡◌, ◌≤◌, ◌+◌, length};
ghost use Rattle.wire_records.specs.Spelling.{spelled_question, spelled_data, spelled_record, spelled_opt, room_after};

use crate::edns::Edns;
use dns_core::{Query, RData, Record};
use wire_names::name_length;

fn take_room(room: usize, count: usize) -> Option<usize>
    ensures { result ≡ room_after room count }
{
    if room < count {
        None
    } else {
        Some(room - count)
    }
}

/// The room that a question leaves.
pub fn question_room(room: usize, query: &Query) -> Option<usize>
    ensures { result ≡ room_after room (length (spelled_question query.now)) }
{
    take_room(room, name_length(&query.name) + 4)
}

fn data_room(room: usize, rdata: &RData) -> Option<usize>
    ensures { result ≡ room_after room (length (spelled_data rdata.now)) }
{
    match rdata {
        RData::A(address) => take_room(room, address.octets().len()),
        RData::AAAA(address) => take_room(room, address.octets().len()),
        RData::NS(name) => take_room(room, name_length(name)),
        RData::CNAME(name) => take_room(room, name_length(name)),
        RData::SOA(soa) => {
            let soa = soa.get();
            take_room(room, name_length(&soa.mname) + name_length(&soa.rname) + 20)
        }
        RData::RRSIG { covered: _, rest } => take_room(take_room(room, 2)?, rest.len()),
        RData::Opaque(kept) => take_room(room, kept.len()),
    }
}

/// The room that a record leaves.
pub fn record_room(room: usize, plain: &Record) -> Option<usize>
    ensures { result ≡ room_after room (length (spelled_record plain.now)) }
{
    let room = take_room(room, name_length(&plain.name) + 10)?;
    data_room(room, &plain.rdata)
}

/// The room that an OPT record leaves.
pub fn opt_room(room: usize, edns: &Edns) -> Option<usize>
    ensures { result ≡ room_after room (11 + length edns.now.options) }
{
    let room = take_room(room, 11)?;
    take_room(room, edns.options.len())
}

/// How long data is that fits in a room.
pub fn data_length(rdata: &RData) -> u16
    requires { length (spelled_data rdata.now) ≤ 65535 }
    ensures { result ≡ length (spelled_data rdata.now) }
{
    match data_room(65535, rdata) {
        Some(left) => (65535 - left) as u16,
        None => 0,
    }
}
