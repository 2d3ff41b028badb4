//! The lines of a message but for those of its records.
ghost use Rattle.std.specs.Prelude.{◌≡◌, ◌++◌, ◌∷◌, [], OnOk, codes};
ghost use Rattle.text_lines.specs.Texts.{flags_text, flag_text, line_of};
ghost use Rattle.decode_text.specs.Decoded.{direction_text, wire_words, question_line, head_words, edns_words, edns_lines};

use crate::hex::put_hex;
use dns_core::{NoMemory, Query, ResponseCode};
use dns_wire::{Edns, WireMessage};
use std::alloc::Global;

fn put_text(text: &[u8], out: &mut Vec<u8>) -> Result<(), NoMemory>
    ensures { OnOk result (out.new.items ≡ out.old.items ++ text.now) }
{
    out.extend_from_slice(text)?;
    Ok(())
}

fn direction_word(response: bool) -> &'static str
    ensures { result.now ≡ direction_text response }
{
    if response { "response" } else { "query" }
}

/// The line of a message: its id, whether it asks or answers, its opcode and its code.
pub fn put_wire_line(
    alloc: Global,
    message: &WireMessage,
    out: &mut Vec<u8>,
) -> Result<(), NoMemory>
    ensures { OnOk result (out.new.items ≡ out.old.items ++ line_of (wire_words message.now)) }
{
    let (id, opcode) = (message.id, message.opcode);
    let direction = direction_word(message.response);
    let code = ResponseCode { code: message.code };
    let line = format!(in alloc; "wire {id} {direction} {opcode} {code}\n")?;
    put_text(line.as_bytes(), out)
}

/// The line of a question.
#[tactic(auto, unfolding(crate::specs::Decoded::question_line))]
pub fn put_question(alloc: Global, query: &Query, out: &mut Vec<u8>) -> Result<(), NoMemory>
    ensures { OnOk result (out.new.items ≡ out.old.items ++ question_line query.now) }
{
    put_text(b"question ", out)?;
    query.name.write_text(alloc, out)?;
    let (asked, class) = (query.query_type, query.query_class);
    let rest = format!(in alloc; " {asked} {class}\n")?;
    put_text(rest.as_bytes(), out)
}

fn flags_word(authoritative: bool, truncation: bool) -> &'static str
    ensures { result.now ≡ flags_text authoritative truncation }
{
    match (authoritative, truncation) {
        (false, false) => "none",
        (true, false) => "aa",
        (false, true) => "tc",
        (true, true) => "aa+tc",
    }
}

/// The head over the records.
pub fn put_head_line(
    alloc: Global,
    message: &WireMessage,
    out: &mut Vec<u8>,
) -> Result<(), NoMemory>
    ensures { OnOk result (out.new.items ≡ out.old.items ++ line_of (head_words message.now)) }
{
    let code = ResponseCode { code: message.code };
    let flags = flags_word(message.authoritative, message.truncation);
    let answers = message.answers.len();
    let (authorities, additionals) = (message.authorities.len(), message.additionals.len());
    let line = format!(in alloc; "message {code} {flags} {answers} {authorities} {additionals}\n")?;
    put_text(line.as_bytes(), out)
}

fn flag_word(flag: bool) -> &'static str
    ensures { result.now ≡ flag_text flag }
{
    if flag { "1" } else { "0" }
}

/// What an OPT record says.
fn put_said(alloc: Global, edns: &Edns, out: &mut Vec<u8>) -> Result<(), NoMemory>
    ensures { OnOk result (out.new.items ≡ out.old.items ++ line_of (edns_words edns.now)) }
{
    let (payload, version) = (edns.payload, edns.version);
    let dnssec_ok = flag_word(edns.dnssec_ok);
    let front = format!(in alloc; "edns {payload} {version} {dnssec_ok} ")?;
    put_text(front.as_bytes(), out)?;
    put_hex(edns.options.items(), out)?;
    put_text(b"\n", out)
}

/// What the OPT record says, if there is one.
pub fn put_edns(alloc: Global, edns: &Option<Edns>, out: &mut Vec<u8>) -> Result<(), NoMemory>
    ensures { OnOk result (out.new.items ≡ out.old.items ++ edns_lines edns.now) }
{
    match edns {
        Some(edns) => put_said(alloc, edns, out),
        None => Ok(()),
    }
}

/// The word that shows that nothing is cut off.
pub fn put_end(out: &mut Vec<u8>) -> Result<(), NoMemory>
    ensures { OnOk result (out.new.items ≡ out.old.items ++ line_of (codes "end" ∷ [])) }
{
    put_text(b"end\n", out)
}
