//! How long a response is kept.
ghost use Rattle.std.specs.Prelude.{◌≡◌, fold};
ghost use Rattle.resolver_cache.specs.Life.{lesser, least_ttl, records, soa_life, negative_life, life_of, moment_after, seconds_between};
ghost use Rattle.resolver_settings.specs.Ttl.{bounds_of};

use dns_core::{Boxed, DnsError, Message, NetError, RData, Record, RecordType};
use resolver_settings::TtlConfig;

/// The least TTL so far, with one record more.
fn lesser(least: Option<u32>, r: &Record) -> Option<u32>
    ensures { result ≡ lesser least r.now }
{
    match least {
        Some(n) => Some(n.min(r.ttl)),
        None => Some(r.ttl),
    }
}

/// The least TTL so far, with these records.
fn least_with(least: Option<u32>, rs: &[Record]) -> Option<u32>
    ensures { result ≡ fold lesser least rs.now }
{
    rs.iter().fold(least, |n, r| lesser(n, r))
}

fn least_ttl(message: &Message) -> u32
    ensures { result ≡ least_ttl (records message.now) }
{
    let least = least_with(None, message.answers.items());
    let least = least_with(least, message.authorities.items());
    let least = least_with(least, message.additionals.items());
    least.unwrap_or(0)
}

fn soa_life(r: &Record) -> u32
    ensures { result ≡ soa_life r.now }
{
    match &r.rdata {
        RData::SOA(soa) => r.ttl.min(soa.get().minimum),
        _ => r.ttl,
    }
}

fn negative_life(config: &TtlConfig, query_type: RecordType, soa: &Option<Boxed<Record>>) -> u64
    ensures { result ≡ negative_life (bounds_of config.now query_type) soa.now }
{
    let (least, most) = config.negative_response_ttl_bounds(query_type);
    match soa {
        Some(soa) => least.max(most.min(u64::from(soa_life(soa.get())))),
        None => least,
    }
}

/// The seconds for which a response to a question of a type is kept, none where it is not.
pub(crate) fn life_of(
    config: &TtlConfig,
    query_type: RecordType,
    response: &Result<Message, NetError>,
) -> Option<u64>
    ensures { result ≡ life_of config.now query_type response.now }
{
    match response {
        Ok(message) => {
            let (least, most) = config.positive_response_ttl_bounds(query_type);
            Some(least.max(most.min(u64::from(least_ttl(message)))))
        }
        Err(NetError::Dns(DnsError::NoRecordsFound(found))) => {
            Some(negative_life(config, query_type, &found.soa))
        }
        Err(_) => None,
    }
}

/// So many seconds after a moment.
pub(crate) fn moment_after(now: u64, life: u64) -> u64
    ensures { result ≡ moment_after now life }
{
    now.saturating_add(life.saturating_mul(1_000_000))
}

/// The whole seconds from a moment to a later one.
pub fn seconds_between(written: u64, now: u64) -> u64
    ensures { result ≡ seconds_between written now }
{
    now.saturating_sub(written) / 1_000_000
}
