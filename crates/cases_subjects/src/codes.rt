//! The numbers of types, classes and response codes, by their names here.

use dns_core::{DnsClass, NoMemory, RecordType, ResponseCode};
use std::alloc::Global;
use std::fmt::Write;

static TYPES: [(&str, RecordType); 23] = [
    ("A", RecordType::A),
    ("NS", RecordType::NS),
    ("CNAME", RecordType::CNAME),
    ("SOA", RecordType::SOA),
    ("NULL", RecordType::NULL),
    ("PTR", RecordType::PTR),
    ("MX", RecordType::MX),
    ("TXT", RecordType::TXT),
    ("AAAA", RecordType::AAAA),
    ("SRV", RecordType::SRV),
    ("OPT", RecordType::OPT),
    ("DS", RecordType::DS),
    ("RRSIG", RecordType::RRSIG),
    ("NSEC", RecordType::NSEC),
    ("DNSKEY", RecordType::DNSKEY),
    ("NSEC3", RecordType::NSEC3),
    ("NSEC3PARAM", RecordType::NSEC3PARAM),
    ("SVCB", RecordType::SVCB),
    ("HTTPS", RecordType::HTTPS),
    ("IXFR", RecordType::IXFR),
    ("AXFR", RecordType::AXFR),
    ("ANY", RecordType::ANY),
    ("CAA", RecordType::CAA),
];

static CLASSES: [(&str, DnsClass); 3] = [
    ("IN", DnsClass::IN),
    ("CH", DnsClass::CH),
    ("HS", DnsClass::HS),
];

static CODES: [(&str, ResponseCode); 6] = [
    ("NoError", ResponseCode::NoError),
    ("FormErr", ResponseCode::FormErr),
    ("ServFail", ResponseCode::ServFail),
    ("NXDomain", ResponseCode::NXDomain),
    ("NotImp", ResponseCode::NotImp),
    ("Refused", ResponseCode::Refused),
];

/// The number of each type, whether it is of data, and whether it is of DNSSEC.
fn put_types(out: &mut String) -> Result<(), NoMemory> {
    for (name, kind) in &TYPES {
        let (code, data, dnssec) = (kind.code, kind.is_data(), kind.is_dnssec());
        writeln!(out, "type {name} {code} data {data} dnssec {dnssec}")?;
    }
    Ok(())
}

/// The numbers of all names, whatever is handed in.
pub fn answer(alloc: Global, _given: &[u8]) -> Result<String, NoMemory> {
    let mut out = String::new(alloc);
    put_types(&mut out)?;
    for (name, class) in &CLASSES {
        let code = class.code;
        writeln!(out, "class {name} {code}")?;
    }
    for (name, kind) in &CODES {
        let code = kind.code;
        writeln!(out, "code {name} {code}")?;
    }
    Ok(out)
}
