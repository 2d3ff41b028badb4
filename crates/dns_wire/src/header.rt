//! The header of a message (RFC 1035 section 4.1.1).
ghost use Rattle.wire_names.specs.Reading.{Gives};
ghost use Rattle.dns_wire.specs.Reading.{header_of};

use wire_names::WireError;
use wire_records::read_two;

/// An id, flags and four counts.
#[derive(Clone, Copy, Debug)]
pub struct Header {
    pub id: u16,
    pub flags: u16,
    pub questions: u16,
    pub answers: u16,
    pub authorities: u16,
    pub extras: u16,
}

/// The header at the front, and what follows it.
pub fn read_header(bytes: &[u8]) -> Result<(Header, &[u8]), WireError>
    ensures { Gives (λ x. (x.0, x.1.now)) result (header_of bytes.now) }
{
    let (id, rest) = read_two(bytes)?;
    let (flags, rest) = read_two(rest)?;
    let (questions, rest) = read_two(rest)?;
    let (answers, rest) = read_two(rest)?;
    let (authorities, rest) = read_two(rest)?;
    let (extras, rest) = read_two(rest)?;
    let header = Header {
        id,
        flags,
        questions,
        answers,
        authorities,
        extras,
    };
    Ok((header, rest))
}
