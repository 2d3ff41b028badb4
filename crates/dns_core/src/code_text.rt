//! The texts of types, classes and response codes: their names, or a word and the number (RFC 3597
//! section 5).
ghost use Rattle.std.specs.Prelude.{◌≡◌, option_copied};
ghost use Rattle.dns_core.specs.CodeTexts.{name_in, type_names, class_names, code_names};

use crate::codes::{DnsClass, RecordType, ResponseCode};
use std::fmt;

impl RecordType {
    /// The name of a type, where it has one.
    #[tactic(auto, unfolding(crate::specs::CodeTexts::type_names))]
    pub fn name(self) -> Option<&'static str>
        ensures { option_copied result ≡ name_in type_names self.code }
    {
        Some(match self.code {
            1 => "A",
            2 => "NS",
            5 => "CNAME",
            6 => "SOA",
            10 => "NULL",
            12 => "PTR",
            15 => "MX",
            16 => "TXT",
            28 => "AAAA",
            33 => "SRV",
            41 => "OPT",
            43 => "DS",
            46 => "RRSIG",
            47 => "NSEC",
            48 => "DNSKEY",
            50 => "NSEC3",
            51 => "NSEC3PARAM",
            64 => "SVCB",
            65 => "HTTPS",
            251 => "IXFR",
            252 => "AXFR",
            255 => "ANY",
            257 => "CAA",
            _ => return None,
        })
    }
}

impl fmt::Display for RecordType {
    ghost use Rattle.std.specs.Prelude.{Some};
    ghost use Rattle.dns_core.specs.CodeTexts.{type_text};

    ghost output = { λ t. Some (type_text t) };

    #[tactic(auto, unfolding(crate::specs::CodeTexts::type_text))]
    fn fmt<W: fmt::Write>(&self, f: &mut fmt::Formatter<W>) -> fmt::Result {
        match self.name() {
            Some(name) => f.write_str(name),
            None => write!(f, "TYPE{}", self.code),
        }
    }
}

impl DnsClass {
    /// The name of a class, where it has one.
    #[tactic(auto, unfolding(crate::specs::CodeTexts::class_names))]
    pub fn name(self) -> Option<&'static str>
        ensures { option_copied result ≡ name_in class_names self.code }
    {
        match self.code {
            1 => Some("IN"),
            3 => Some("CH"),
            4 => Some("HS"),
            _ => None,
        }
    }
}

impl fmt::Display for DnsClass {
    ghost use Rattle.std.specs.Prelude.{Some};
    ghost use Rattle.dns_core.specs.CodeTexts.{class_text};

    ghost output = { λ c. Some (class_text c) };

    #[tactic(auto, unfolding(crate::specs::CodeTexts::class_text))]
    fn fmt<W: fmt::Write>(&self, f: &mut fmt::Formatter<W>) -> fmt::Result {
        match self.name() {
            Some(name) => f.write_str(name),
            None => write!(f, "CLASS{}", self.code),
        }
    }
}

impl ResponseCode {
    /// The name of a response code, where it has one.
    #[tactic(auto, unfolding(crate::specs::CodeTexts::code_names))]
    pub fn name(self) -> Option<&'static str>
        ensures { option_copied result ≡ name_in code_names self.code }
    {
        match self.code {
            0 => Some("NOERROR"),
            1 => Some("FORMERR"),
            2 => Some("SERVFAIL"),
            3 => Some("NXDOMAIN"),
            4 => Some("NOTIMP"),
            5 => Some("REFUSED"),
            _ => None,
        }
    }
}

impl fmt::Display for ResponseCode {
    ghost use Rattle.std.specs.Prelude.{Some};
    ghost use Rattle.dns_core.specs.CodeTexts.{response_code_text};

    ghost output = { λ c. Some (response_code_text c) };

    #[tactic(auto, unfolding(crate::specs::CodeTexts::response_code_text))]
    fn fmt<W: fmt::Write>(&self, f: &mut fmt::Formatter<W>) -> fmt::Result {
        match self.name() {
            Some(name) => f.write_str(name),
            None => write!(f, "RCODE{}", self.code),
        }
    }
}
