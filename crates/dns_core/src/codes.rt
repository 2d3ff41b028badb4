//! Types, classes and response codes: numbers of 16 bits, with the names of the standard registry.
ghost use Rattle.std.specs.Prelude.{◌≡◌};
ghost use Rattle.dns_core.specs.Codes.{is_dnssec_type, is_data_type};

/// The type of a record or a question (RFC 1035 section 3.2.2).
#[derive(Clone, Copy, Debug, PartialEq, Eq, PartialOrd, Ord, Hash)]
pub struct RecordType {
    pub code: u16,
}

impl RecordType {
    pub const A: RecordType = RecordType { code: 1 };

    pub const NS: RecordType = RecordType { code: 2 };

    pub const CNAME: RecordType = RecordType { code: 5 };

    pub const SOA: RecordType = RecordType { code: 6 };

    pub const NULL: RecordType = RecordType { code: 10 };

    pub const PTR: RecordType = RecordType { code: 12 };

    pub const MX: RecordType = RecordType { code: 15 };

    pub const TXT: RecordType = RecordType { code: 16 };

    pub const AAAA: RecordType = RecordType { code: 28 };

    pub const SRV: RecordType = RecordType { code: 33 };

    pub const OPT: RecordType = RecordType { code: 41 };

    pub const DS: RecordType = RecordType { code: 43 };

    pub const RRSIG: RecordType = RecordType { code: 46 };

    pub const NSEC: RecordType = RecordType { code: 47 };

    pub const DNSKEY: RecordType = RecordType { code: 48 };

    pub const NSEC3: RecordType = RecordType { code: 50 };

    pub const NSEC3PARAM: RecordType = RecordType { code: 51 };

    pub const SVCB: RecordType = RecordType { code: 64 };

    pub const HTTPS: RecordType = RecordType { code: 65 };

    pub const IXFR: RecordType = RecordType { code: 251 };

    pub const AXFR: RecordType = RecordType { code: 252 };

    pub const ANY: RecordType = RecordType { code: 255 };

    pub const CAA: RecordType = RecordType { code: 257 };

    /// Whether a type is one of data: neither 0, nor OPT, nor one that only questions have.
    pub fn is_data(self) -> bool
        ensures { result ≡ is_data_type self }
    {
        !(self.code == 0 || self.code == 41 || (128 <= self.code && self.code <= 255))
    }

    /// Whether a type is DS, RRSIG, NSEC, DNSKEY, NSEC3 or NSEC3PARAM.
    pub fn is_dnssec(self) -> bool
        ensures { result ≡ is_dnssec_type self }
    {
        matches!(self.code, 43 | 46 | 47 | 48 | 50 | 51)
    }
}

/// The class of a record or a question (RFC 1035 section 3.2.4).
#[derive(Clone, Copy, Debug, PartialEq, Eq, PartialOrd, Ord, Hash)]
pub struct DnsClass {
    pub code: u16,
}

impl DnsClass {
    pub const IN: DnsClass = DnsClass { code: 1 };

    pub const CH: DnsClass = DnsClass { code: 3 };

    pub const HS: DnsClass = DnsClass { code: 4 };
}

/// The code of a response (RFC 1035 section 4.1.1).
#[derive(Clone, Copy, Debug, PartialEq, Eq, PartialOrd, Ord, Hash)]
pub struct ResponseCode {
    pub code: u16,
}

impl ResponseCode {
    pub const NoError: ResponseCode = ResponseCode { code: 0 };

    pub const FormErr: ResponseCode = ResponseCode { code: 1 };

    pub const ServFail: ResponseCode = ResponseCode { code: 2 };

    pub const NXDomain: ResponseCode = ResponseCode { code: 3 };

    pub const NotImp: ResponseCode = ResponseCode { code: 4 };

    pub const Refused: ResponseCode = ResponseCode { code: 5 };
}
