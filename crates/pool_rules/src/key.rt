//! Which requests are for one lookup.
ghost use Rattle.std.specs.Prelude.{◌≡◌};
ghost use Rattle.resolution.specs.Names.{same_query};
ghost use Rattle.pool_rules.specs.Key.{same_subnet, same_options, same_key};

use dns_core::{DnsRequest, DnsRequestOptions, Query};
use std::net::IpAddr;

fn same_query(left: &Query, right: &Query) -> bool
    ensures { result ≡ same_query left.now right.now }
{
    left.name == right.name
        && left.query_type.code == right.query_type.code
        && left.query_class.code == right.query_class.code
}

fn same_subnet(left: Option<(IpAddr, u8)>, right: Option<(IpAddr, u8)>) -> bool
    ensures { result ≡ same_subnet left right }
{
    match (left, right) {
        (None, None) => true,
        (Some((ip, bits)), Some((other, others))) => ip == other && bits == others,
        _ => false,
    }
}

/// Whether the options are equal by which a server may answer otherwise.
fn same_options(left: &DnsRequestOptions, right: &DnsRequestOptions) -> bool
    ensures { result ≡ same_options left.now right.now }
{
    left.recursion_desired == right.recursion_desired
        && left.checking_disabled == right.checking_disabled
        && left.edns_set_dnssec_ok == right.edns_set_dnssec_ok
        && same_subnet(left.client_subnet, right.client_subnet)
}

/// Whether two requests are for one lookup: they ask the same question, the case of its letters aside,
/// and their options let no server answer one of them otherwise.
pub fn same_key(left: &DnsRequest, right: &DnsRequest) -> bool
    ensures { result ≡ same_key left.now right.now }
{
    same_query(&left.query, &right.query) && same_options(&left.options, &right.options)
}
