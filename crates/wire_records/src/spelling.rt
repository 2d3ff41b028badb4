//! Questions and records written out, without pointers.
ghost use Rattle.std.specs.Prelude.{◌≡◌, ◌≤◌, ◌<◌, ◌*◌, ◌++◌, ◌∷◌, [], length, OnOk};
ghost use Rattle.dns_core.specs.Labels.{AreLabels};
ghost use Rattle.wire_names.specs.Names.{written};
ghost use Rattle.wire_records.specs.Numbers.{two, four};
ghost use Rattle.wire_records.specs.Records.{bit};
ghost use Rattle.wire_records.specs.Spelling.{spelled_question, spelled_soa, spelled_data, spelled_fixed, spelled_record, spelled_opt, FitData, FitRecord, FitQuestion};

use crate::edns::Edns;
use dns_core::{Name, NoMemory, Query, RData, Record, Soa};
use wire_names::write_name;

/// Appends a number of two bytes.
pub fn write_two(out: &mut Vec<u8>, number: u16) -> Result<(), NoMemory>
    ensures { OnOk result (out.new.items ≡ out.old.items ++ two number) }
{
    out.push((number / 256) as u8)?;
    out.push((number % 256) as u8)?;
    Ok(())
}

/// Appends a number of four bytes.
pub fn write_four(out: &mut Vec<u8>, number: u32) -> Result<(), NoMemory>
    ensures { OnOk result (out.new.items ≡ out.old.items ++ four number) }
{
    write_two(out, (number / 65536) as u16)?;
    write_two(out, (number % 65536) as u16)
}

/// Appends a name, of which its type says that its labels are labels of a name.
fn write_fit_name(out: &mut Vec<u8>, name: &Name) -> Result<(), NoMemory>
    ensures ok { OnOk result (out.new.items ≡ out.old.items ++ written name.now.labels) }
    ensures fit { AreLabels name.now.labels }
{
    let _labels = name.labels();
    write_name(out, name)
}

/// Appends a question.
pub fn write_question(out: &mut Vec<u8>, query: &Query) -> Result<(), NoMemory>
    ensures ok { OnOk result (out.new.items ≡ out.old.items ++ spelled_question query.now) }
    ensures fit { OnOk result (FitQuestion query.now) }
{
    write_fit_name(out, &query.name)?;
    write_two(out, query.query_type.code)?;
    write_two(out, query.query_class.code)
}

fn write_lives(out: &mut Vec<u8>, soa: &Soa) -> Result<(), NoMemory>
    ensures { OnOk result (out.new.items ≡ out.old.items ++ (four soa.now.serial ++ (four soa.now.refresh ++ (four soa.now.retry ++ (four soa.now.expire ++ four soa.now.minimum))))) }
{
    write_four(out, soa.serial)?;
    write_four(out, soa.refresh)?;
    write_four(out, soa.retry)?;
    write_four(out, soa.expire)?;
    write_four(out, soa.minimum)
}

fn write_soa(out: &mut Vec<u8>, soa: &Soa) -> Result<(), NoMemory>
    ensures ok { OnOk result (out.new.items ≡ out.old.items ++ spelled_soa soa.now) }
    ensures fit { OnOk result (AreLabels soa.now.mname.labels × AreLabels soa.now.rname.labels) }
{
    write_fit_name(out, &soa.mname)?;
    write_fit_name(out, &soa.rname)?;
    write_lives(out, soa)
}

/// Appends data.
fn write_data(out: &mut Vec<u8>, rdata: &RData) -> Result<(), NoMemory>
    ensures ok { OnOk result (out.new.items ≡ out.old.items ++ spelled_data rdata.now) }
    ensures fit { OnOk result (FitData rdata.now) }
{
    match rdata {
        RData::A(address) => out.extend_from_slice(&address.octets())?,
        RData::AAAA(address) => out.extend_from_slice(&address.octets())?,
        RData::NS(name) => write_fit_name(out, name)?,
        RData::CNAME(name) => write_fit_name(out, name)?,
        RData::SOA(soa) => write_soa(out, soa.get())?,
        RData::RRSIG { covered, rest } => {
            write_two(out, covered.code)?;
            out.extend_from_slice(rest.items())?;
        }
        RData::Opaque(kept) => out.extend_from_slice(kept.items())?,
    }
    Ok(())
}

fn write_fixed(
    out: &mut Vec<u8>,
    code: u16,
    class: u16,
    ttl: u32,
    count: u16,
) -> Result<(), NoMemory>
    ensures { OnOk result (out.new.items ≡ out.old.items ++ spelled_fixed code class ttl count) }
{
    write_two(out, code)?;
    write_two(out, class)?;
    write_four(out, ttl)?;
    write_two(out, count)
}

/// Appends a record; `count` says how long its data is.
pub fn write_record(out: &mut Vec<u8>, plain: &Record, count: u16) -> Result<(), NoMemory>
    requires { count ≡ length (spelled_data plain.now.rdata) }
    ensures ok { OnOk result (out.new.items ≡ out.old.items ++ spelled_record plain.now) }
    ensures fit { OnOk result (FitRecord plain.now) }
{
    write_fit_name(out, &plain.name)?;
    write_fixed(
        out,
        plain.record_type.code,
        plain.dns_class.code,
        plain.ttl,
        count,
    )?;
    write_data(out, &plain.rdata)
}

fn dnssec_flags(dnssec_ok: bool) -> u16
    ensures { result ≡ 32768 * bit dnssec_ok }
{
    if dnssec_ok { 32768 } else { 0 }
}

fn write_opt_head(out: &mut Vec<u8>, payload: u16, upper: u8, version: u8) -> Result<(), NoMemory>
    ensures { OnOk result (out.new.items ≡ out.old.items ++ 0 ∷ (two 41 ++ (two payload ++ upper ∷ version ∷ []))) }
{
    out.push(0)?;
    write_two(out, 41)?;
    write_two(out, payload)?;
    out.push(upper)?;
    out.push(version)?;
    Ok(())
}

/// Appends an OPT record with these upper bits of the code.
pub fn write_opt(out: &mut Vec<u8>, upper: u8, edns: &Edns) -> Result<(), NoMemory>
    requires { length edns.now.options < 65536 }
    ensures { OnOk result (out.new.items ≡ out.old.items ++ spelled_opt upper edns.now) }
{
    write_opt_head(out, edns.payload, upper, edns.version)?;
    write_two(out, dnssec_flags(edns.dnssec_ok))?;
    write_two(out, edns.options.len() as u16)?;
    out.extend_from_slice(edns.options.items())?;
    Ok(())
}
