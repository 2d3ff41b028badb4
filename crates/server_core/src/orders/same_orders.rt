//! When two orders are equal, with the case of the names in them.
ghost use Rattle.std.specs.Prelude.{◌≡◌, ◌↔◌, IsTrue};

use dns_core::{ConnectionConfig, DnsRequest, DnsRequestOptions, ProtocolConfig, Query, Text};
use std::net::IpAddr;

fn same_text(left: &Text, right: &Text) -> bool
    ensures { IsTrue result ↔ (left.now ≡ right.now) }
{
    left == right
}

fn same_query(left: &Query, right: &Query) -> bool
    ensures { IsTrue result ↔ (left.now ≡ right.now) }
{
    left.name.eq_case(&right.name)
        && left.query_type.code == right.query_type.code
        && left.query_class.code == right.query_class.code
}

fn same_subnet(left: Option<(IpAddr, u8)>, right: Option<(IpAddr, u8)>) -> bool
    ensures { IsTrue result ↔ (left ≡ right) }
{
    left == right
}

fn same_options(left: &DnsRequestOptions, right: &DnsRequestOptions) -> bool
    ensures { IsTrue result ↔ (left.now ≡ right.now) }
{
    left.recursion_desired == right.recursion_desired
        && left.edns_set_dnssec_ok == right.edns_set_dnssec_ok
        && left.edns_payload_len == right.edns_payload_len
        && left.case_randomization == right.case_randomization
        && left.checking_disabled == right.checking_disabled
        && left.retry_interval == right.retry_interval
        && same_subnet(left.client_subnet, right.client_subnet)
}

pub(crate) fn same_request(left: &DnsRequest, right: &DnsRequest) -> bool
    ensures { IsTrue result ↔ (left.now ≡ right.now) }
{
    same_query(&left.query, &right.query) && same_options(&left.options, &right.options)
}

fn same_protocol(left: &ProtocolConfig, right: &ProtocolConfig) -> bool
    ensures { IsTrue result ↔ (left.now ≡ right.now) }
{
    left == right
}

pub(crate) fn same_config(left: &ConnectionConfig, right: &ConnectionConfig) -> bool
    ensures { IsTrue result ↔ (left.now ≡ right.now) }
{
    left.port == right.port
        && left.bind_addr == right.bind_addr
        && same_protocol(&left.protocol, &right.protocol)
}

/// Whether both are equal, octet by octet.
fn same_octets(left: [u8; 4], right: [u8; 4]) -> bool
    ensures { IsTrue result ↔ (left ≡ right) }
{
    left[0] == right[0] && left[1] == right[1] && left[2] == right[2] && left[3] == right[3]
}

/// Whether two addresses are equal.
pub fn same_address(left: IpAddr, right: IpAddr) -> bool
    ensures { IsTrue result ↔ (left ≡ right) }
{
    match (left, right) {
        (IpAddr::V4(left), IpAddr::V4(right)) => same_octets(left.octets(), right.octets()),
        (left, right) => left == right,
    }
}
