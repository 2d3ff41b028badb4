//! How much room a message needs that is written out: what is left of a room, if it is enough.
ghost use Rattle.std.specs.Prelude.{◌≡◌, ◌<◌, ℕ, length};
ghost use Rattle.std.specs.List.{flat_map};
ghost use Rattle.wire_records.specs.Spelling.{spelled_question, spelled_record, room_after};
ghost use Rattle.dns_wire.specs.Spelling.{spelled_edns, spelled};

use crate::message::WireMessage;
use dns_core::{Query, Record};
use wire_records::{Edns, opt_room, question_room, record_room};

fn questions_room(room: usize, questions: &[Query]) -> Option<usize>
    ensures { result ≡ room_after room (length (flat_map spelled_question questions.now)) }
{
    let mut left = room;
    for query in questions {
        left = question_room(left, query)?;
    }
    Some(left)
}

fn records_room(room: usize, records: &[Record]) -> Option<usize>
    ensures { result ≡ room_after room (length (flat_map spelled_record records.now)) }
{
    let mut left = room;
    for plain in records {
        left = record_room(left, plain)?;
    }
    Some(left)
}

fn edns_room(room: usize, edns: &Option<Edns>) -> Option<usize>
    ensures { (upper : ℕ) → result ≡ room_after room (length (spelled_edns upper edns.now)) }
{
    match edns {
        Some(edns) => opt_room(room, edns),
        None => Some(room),
    }
}

/// The room that a message leaves of the 65,535 bytes that it may have.
pub fn message_room(message: &WireMessage) -> Option<usize>
    ensures { result ≡ room_after 65535 (length (spelled message.now)) }
{
    let left = questions_room(65535 - 12, message.questions.items())?;
    let left = records_room(left, message.answers.items())?;
    let left = records_room(left, message.authorities.items())?;
    let left = records_room(left, message.additionals.items())?;
    edns_room(left, &message.edns)
}
