//! Questions as they are sent to a server, and as they are put to a resolver.
ghost use Rattle.std.specs.Prelude.{◌≡◌, true, false, None};

use crate::message::Query;
use std::net::IpAddr;

/// What a request says beside its question. The interval is in microseconds; the subnet is an
/// address and the length of its prefix (RFC 7871); the payload is that of EDNS (RFC 6891).
#[derive(Clone, Copy, Debug, PartialEq, Eq)]
pub struct DnsRequestOptions {
    pub recursion_desired: bool,
    pub edns_set_dnssec_ok: bool,
    pub edns_payload_len: u16,
    pub case_randomization: bool,
    pub checking_disabled: bool,
    pub client_subnet: Option<(IpAddr, u8)>,
    pub retry_interval: u64,
}

impl DnsRequestOptions {
    /// Recursion desired, a payload of 1,232 bytes, no other flag, no subnet, no interval.
    pub fn standard() -> DnsRequestOptions
        ensures { result ≡ record { recursion_desired = true; edns_set_dnssec_ok = false; edns_payload_len = 1232; case_randomization = false; checking_disabled = false; client_subnet = None; retry_interval = 0 } }
    {
        DnsRequestOptions {
            recursion_desired: true,
            edns_set_dnssec_ok: false,
            edns_payload_len: 1232,
            case_randomization: false,
            checking_disabled: false,
            client_subnet: None,
            retry_interval: 0,
        }
    }
}

/// A question with the options that it is sent with.
#[derive(Drop, Debug, PartialEq, Eq)]
pub struct DnsRequest {
    pub query: Query,
    pub options: DnsRequestOptions,
}

/// A question that is put to a resolver, and whether DNSSEC records are asked for.
#[derive(Drop, Debug, PartialEq, Eq)]
pub struct Question {
    pub query: Query,
    pub dnssec_ok: bool,
}

/// A question, numbered from 1, that gets a turn at a moment, in microseconds.
#[derive(Clone, Copy, Debug, PartialEq, Eq)]
pub struct Turn {
    pub question: u32,
    pub moment: u64,
}
