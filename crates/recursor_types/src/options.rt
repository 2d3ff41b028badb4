//! What a recursor is set to.
ghost use Rattle.std.specs.Prelude.{◌≡◌, ◌∷◌, [], false, IfOk};
ghost use Rattle.std.specs.List.{list_all};
ghost use Rattle.resolver_settings.specs.Recommended.{special_nets};
ghost use Rattle.resolver_settings.specs.Ttl.{one_day};
ghost use Rattle.recursor_types.specs.Options.{is_first_delay, has_bad_first_delays};

use dns_core::{Delays, NoMemory, Ports};
use resolver_settings::{Nets, TtlConfig, recommended_server_filters};
use std::alloc::Global;

/// The options of a recursor. The cache keeps so many responses, each for as long as the policy's
/// bounds of TTLs say. A question whose aliases, or whose zones on the way from the root, come to their
/// limit is no valid one. An address that a delegation gives is asked, and one of an answer stands there,
/// where it is in no denied network or in an allowed one. The payload is that of EDNS, in bytes; the ports rise. Servers start with the
/// first delays in turn, each from 1 to 31 microseconds, of which there is at least one.
#[derive(Debug, PartialEq, Eq)]
pub struct RecursorOptions {
    pub response_cache_size: u64,
    pub recursion_limit: u8,
    pub ns_recursion_limit: u8,
    pub allow_answers: Nets,
    pub deny_answers: Nets,
    pub allow_server: Nets,
    pub deny_server: Nets,
    pub avoid_local_udp_ports: Ports,
    pub cache_policy: TtlConfig,
    pub case_randomization: bool,
    pub edns_payload_len: u16,
    pub first_delays: Delays,
}

impl Drop for RecursorOptions {
    fn drop(self) {
        let RecursorOptions {
            response_cache_size: _,
            recursion_limit: _,
            ns_recursion_limit: _,
            allow_answers: _,
            deny_answers: _,
            allow_server: _,
            deny_server: _,
            avoid_local_udp_ports: _,
            cache_policy: _,
            case_randomization: _,
            edns_payload_len: _,
            first_delays: _,
        } = self;
    }
}

/// Whether a server may start with this delay, in microseconds.
fn is_first_delay(micros: u8) -> bool
    ensures { result ≡ is_first_delay micros }
{
    1 <= micros && micros <= 31
}

/// Whether a server may start with each of these delays.
fn are_first_delays(delays: &[u8]) -> bool
    ensures { result ≡ list_all is_first_delay delays.now }
{
    delays.iter().all(|micros| is_first_delay(*micros))
}

impl RecursorOptions {
    /// 1,048,576 responses are kept, from 0 to 86,400 seconds; both limits are 24; answers may have any address; the 22 networks of special purpose are
    /// denied and none is allowed (RFC 6890), no port is avoided, case is not randomized, the payload is
    /// 1,232 bytes, and each server starts with 1 microsecond. It fails only where memory runs out.
    pub fn standard(alloc: Global) -> Result<RecursorOptions, NoMemory>
        ensures { IfOk result (λ options. options ≡ record {
          response_cache_size = 1048576;
          recursion_limit = 24;
          ns_recursion_limit = 24;
          allow_answers = [];
          deny_answers = [];
          allow_server = [];
          deny_server = special_nets;
          avoid_local_udp_ports = [];
          cache_policy = record { general = one_day; own = [] };
          case_randomization = false;
          edns_payload_len = 1232;
          first_delays = 1 ∷ [];
        }) }
    {
        Ok(RecursorOptions {
            response_cache_size: 1_048_576,
            recursion_limit: 24,
            ns_recursion_limit: 24,
            allow_answers: Nets::empty(alloc),
            deny_answers: Nets::empty(alloc),
            allow_server: Nets::empty(alloc),
            deny_server: Nets::new(recommended_server_filters(alloc)?),
            avoid_local_udp_ports: Ports::empty(alloc),
            cache_policy: TtlConfig::standard(alloc),
            case_randomization: false,
            edns_payload_len: 1232,
            first_delays: Delays::new(vec![in alloc; 1u8]?),
        })
    }

    /// Whether there is no first delay, or one with which no server may start.
    pub fn has_bad_first_delays(&self) -> bool
        ensures { result ≡ has_bad_first_delays self.now.first_delays }
    {
        self.first_delays.is_empty() || !are_first_delays(self.first_delays.items())
    }
}
