//! Which records of a response are left out where DNSSEC records were not asked for (RFC 4035
//! section 3.2.1).
ghost use Rattle.std.specs.Prelude.{◌≡◌, filter};
ghost use Rattle.dns_core.specs.Stripping.{is_kept, strip_of};

use crate::codes::RecordType;
use crate::items::Items;
use crate::message::Message;
use crate::record::Record;

/// Whether a record stays where DNSSEC records leave.
fn stays(r: &Record, asked: RecordType) -> bool
    ensures { result ≡ is_kept asked r.now }
{
    !r.record_type.is_dnssec() || r.record_type == asked
}

fn keep(records: &mut Vec<Record>, asked: RecordType)
    ensures { records.new.items ≡ filter (is_kept asked) records.old.items }
{
    records.retain(|r| stays(r, asked));
}

fn strip_section(records: Items<Record>, asked: RecordType) -> Items<Record>
    ensures { result ≡ filter (is_kept asked) records }
{
    let mut items = records.into_vec();
    keep(&mut items, asked);
    Items::new(items)
}

/// Without the DO flag, DNSSEC records leave all sections, except records of the asked type.
pub fn strip(message: Message, dnssec_ok: bool) -> Message
    ensures { result ≡ strip_of message dnssec_ok }
{
    if dnssec_ok {
        return message;
    }
    let asked = message.query.query_type;
    Message {
        query: message.query,
        response_code: message.response_code,
        authoritative: message.authoritative,
        truncation: message.truncation,
        answers: strip_section(message.answers, asked),
        authorities: strip_section(message.authorities, asked),
        additionals: strip_section(message.additionals, asked),
    }
}
