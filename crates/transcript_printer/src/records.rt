//! Records and messages.
ghost use Rattle.std.specs.Prelude.{◌≡◌, ◌++◌, ◌∷◌, [], OnOk, OnErr, decimal, length};
ghost use Rattle.std.specs.Net.Addr.{ipv4_octets, ipv6_segments};
ghost use Rattle.std.specs.Net.Text.{ipv4_text, hex_groups_text};
ghost use Rattle.dns_core.specs.NameText.{text_of};
ghost use Rattle.dns_core.specs.declared.record.RData.TheVariants.{SOA, RRSIG};
ghost use Rattle.transcript_printer.specs.Appending.{Appends, spaced};
ghost use Rattle.dns_core.specs.CodeTexts.{type_text, class_text, response_code_text};
ghost use Rattle.text_lines.specs.Texts.{flags_text, hex_text, data_words, record_details, record_line, record_lines, message_details, message_words, message_records, message_text, line_of};

use crate::codes::{put_class, put_flags, put_response_code, put_type};
use crate::words::{put_bytes, put_count, put_hex, put_ipv4, put_ipv6, put_name, put_number};
use dns_core::{DnsClass, Message, Name, NoMemory, RData, Record, RecordType, ResponseCode, Soa};
use std::alloc::Global;
use std::net::{Ipv4Addr, Ipv6Addr};

pub fn put_spaced_name(name: &Name, out: &mut Vec<u8>) -> Result<(), NoMemory>
    ensures { Appends result out.old.items out.new.items (32 ∷ text_of name.now) }
{
    put_bytes(b" ", out)?;
    put_name(name, out)
}

fn put_spaced_hex(bytes: &[u8], out: &mut Vec<u8>) -> Result<(), NoMemory>
    ensures { Appends result out.old.items out.new.items (32 ∷ hex_text bytes.now) }
{
    put_bytes(b" ", out)?;
    put_hex(bytes, out)
}

pub fn put_spaced_type(record_type: RecordType, out: &mut Vec<u8>) -> Result<(), NoMemory>
    ensures { Appends result out.old.items out.new.items (32 ∷ type_text record_type) }
{
    put_bytes(b" ", out)?;
    put_type(record_type, out)
}

pub fn put_spaced_class(class: DnsClass, out: &mut Vec<u8>) -> Result<(), NoMemory>
    ensures { Appends result out.old.items out.new.items (32 ∷ class_text class) }
{
    put_bytes(b" ", out)?;
    put_class(class, out)
}

/// The last three numbers of an SOA.
fn put_lives(soa: &Soa, out: &mut Vec<u8>) -> Result<(), NoMemory>
    ensures { Appends result out.old.items out.new.items (spaced (decimal soa.now.retry ∷ decimal soa.now.expire ∷ decimal soa.now.minimum ∷ [])) }
{
    put_count(u64::from(soa.retry), out)?;
    put_count(u64::from(soa.expire), out)?;
    put_count(u64::from(soa.minimum), out)
}

fn put_numbers(soa: &Soa, out: &mut Vec<u8>) -> Result<(), NoMemory>
    ensures { Appends result out.old.items out.new.items (spaced (decimal soa.now.serial ∷ decimal soa.now.refresh ∷ decimal soa.now.retry ∷ decimal soa.now.expire ∷ decimal soa.now.minimum ∷ [])) }
{
    put_count(u64::from(soa.serial), out)?;
    put_count(u64::from(soa.refresh), out)?;
    put_lives(soa, out)
}

fn put_soa(soa: &Soa, out: &mut Vec<u8>) -> Result<(), NoMemory>
    ensures { Appends result out.old.items out.new.items (spaced (data_words (SOA soa.now))) }
{
    put_spaced_name(&soa.mname, out)?;
    put_spaced_name(&soa.rname, out)?;
    put_numbers(soa, out)
}

/// The type that a signature covers, and the rest as bytes.
fn put_signature(covered: RecordType, rest: &[u8], out: &mut Vec<u8>) -> Result<(), NoMemory>
    ensures { Appends result out.old.items out.new.items (spaced (data_words (RRSIG covered rest.now))) }
{
    put_spaced_type(covered, out)?;
    put_spaced_hex(rest, out)
}

fn put_spaced_ipv4(ip: Ipv4Addr, out: &mut Vec<u8>) -> Result<(), NoMemory>
    ensures { Appends result out.old.items out.new.items (32 ∷ ipv4_text (ipv4_octets ip)) }
{
    put_bytes(b" ", out)?;
    put_ipv4(ip, out)?;
    Ok(())
}

fn put_spaced_ipv6(alloc: Global, ip: Ipv6Addr, out: &mut Vec<u8>) -> Result<(), NoMemory>
    ensures { Appends result out.old.items out.new.items (32 ∷ hex_groups_text (ipv6_segments ip)) }
{
    put_bytes(b" ", out)?;
    put_ipv6(alloc, ip, out)
}

fn put_data(alloc: Global, rdata: &RData, out: &mut Vec<u8>) -> Result<(), NoMemory>
    ensures { Appends result out.old.items out.new.items (spaced (data_words rdata.now)) }
{
    match rdata {
        RData::A(ip) => put_spaced_ipv4(*ip, out),
        RData::AAAA(ip) => put_spaced_ipv6(alloc, *ip, out),
        RData::NS(target) | RData::CNAME(target) => put_spaced_name(target, out),
        RData::SOA(soa) => put_soa(soa.get(), out),
        RData::RRSIG { covered, rest } => put_signature(*covered, rest.items(), out),
        RData::Opaque(bytes) => put_spaced_hex(bytes.items(), out),
    }
}

fn put_record_details(alloc: Global, entry: &Record, out: &mut Vec<u8>) -> Result<(), NoMemory>
    ensures { Appends result out.old.items out.new.items (spaced (record_details entry.now)) }
{
    put_count(u64::from(entry.ttl), out)?;
    put_spaced_class(entry.dns_class, out)?;
    put_spaced_type(entry.record_type, out)?;
    put_data(alloc, &entry.rdata, out)
}

#[tactic(auto, unfolding(text_lines::specs::Texts::record_line), using(crate::proofs::TextsAppended::line_of_words))]
pub fn put_record(alloc: Global, entry: &Record, out: &mut Vec<u8>) -> Result<(), NoMemory>
    ensures { Appends result out.old.items out.new.items (record_line entry.now) }
{
    put_name(&entry.name, out)?;
    put_record_details(alloc, entry, out)?;
    put_bytes(b"\n", out)
}

pub fn put_records(alloc: Global, records: &[Record], out: &mut Vec<u8>) -> Result<(), NoMemory>
    ensures { Appends result out.old.items out.new.items (record_lines records.now) }
{
    for entry in records {
        put_record(alloc, entry, out)?;
    }
    Ok(())
}

pub fn put_spaced_code(code: ResponseCode, out: &mut Vec<u8>) -> Result<(), NoMemory>
    ensures { Appends result out.old.items out.new.items (32 ∷ response_code_text code) }
{
    put_bytes(b" ", out)?;
    put_response_code(code, out)
}

fn put_spaced_flags(m: &Message, out: &mut Vec<u8>) -> Result<(), NoMemory>
    ensures { Appends result out.old.items out.new.items (32 ∷ flags_text m.now.authoritative m.now.truncation) }
{
    put_bytes(b" ", out)?;
    put_flags(m.authoritative, m.truncation, out)
}

/// How many records each section has.
fn put_section_counts(m: &Message, out: &mut Vec<u8>) -> Result<(), NoMemory>
    ensures { Appends result out.old.items out.new.items (spaced (decimal (length m.now.answers) ∷ decimal (length m.now.authorities) ∷ decimal (length m.now.additionals) ∷ [])) }
{
    put_count(m.answers.len() as u64, out)?;
    put_count(m.authorities.len() as u64, out)?;
    put_count(m.additionals.len() as u64, out)
}

pub fn put_message_details(m: &Message, out: &mut Vec<u8>) -> Result<(), NoMemory>
    ensures { Appends result out.old.items out.new.items (spaced (message_details m.now)) }
{
    put_spaced_code(m.response_code, out)?;
    put_spaced_flags(m, out)?;
    put_section_counts(m, out)
}

#[tactic(auto, using(crate::proofs::TextsAppended::sections))]
pub fn put_sections(alloc: Global, m: &Message, out: &mut Vec<u8>) -> Result<(), NoMemory>
    ensures { Appends result out.old.items out.new.items (record_lines (message_records m.now)) }
{
    put_records(alloc, m.answers.items(), out)?;
    put_records(alloc, m.authorities.items(), out)?;
    put_records(alloc, m.additionals.items(), out)
}

#[tactic(auto, using(crate::proofs::TextsAppended::line_of_words))]
fn put_message_line(m: &Message, out: &mut Vec<u8>) -> Result<(), NoMemory>
    ensures { Appends result out.old.items out.new.items (line_of (message_words m.now)) }
{
    put_bytes(b"message", out)?;
    put_message_details(m, out)?;
    put_bytes(b"\n", out)
}

#[tactic(auto, unfolding(text_lines::specs::Texts::message_text))]
pub fn put_message(alloc: Global, m: &Message, out: &mut Vec<u8>) -> Result<(), NoMemory>
    ensures { Appends result out.old.items out.new.items (message_text m.now) }
{
    put_message_line(m, out)?;
    put_sections(alloc, m, out)
}

/// Appends a record's line, or leaves all as it was.
pub fn print_record(alloc: Global, entry: &Record, out: &mut Vec<u8>) -> Result<(), NoMemory>
    ensures ok { OnOk result (out.new.items ≡ out.old.items ++ record_line entry.now) }
    ensures err { OnErr result (out.new.items ≡ out.old.items) }
{
    let before = out.len();
    match put_record(alloc, entry, out) {
        Ok(()) => Ok(()),
        Err(error) => {
            out.truncate(before);
            Err(error)
        }
    }
}

/// Appends a message's line and those of its records, or leaves all as it was.
pub fn print_message(alloc: Global, m: &Message, out: &mut Vec<u8>) -> Result<(), NoMemory>
    ensures ok { OnOk result (out.new.items ≡ out.old.items ++ message_text m.now) }
    ensures err { OnErr result (out.new.items ≡ out.old.items) }
{
    let before = out.len();
    match put_message(alloc, m, out) {
        Ok(()) => Ok(()),
        Err(error) => {
            out.truncate(before);
            Err(error)
        }
    }
}
