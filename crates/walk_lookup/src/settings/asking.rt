//! How servers are asked.
ghost use Rattle.std.specs.Prelude.{◌≡◌, IfOk};
ghost use Rattle.walk_lookup.specs.Asking.{context_of, connect_of, request_options_of};

use dns_core::{ConnectOptions, DnsRequestOptions, NoMemory, TryClone};
use recursor_types::Policy;
use resolver_settings::ResolverOpts;
use server_core::PoolContext;
use std::alloc::Global;

/// What the pools of servers are set to by the policy. It fails where memory runs out alone.
pub fn pool_context(alloc: Global, policy: &Policy) -> Result<PoolContext, NoMemory>
    ensures { IfOk result (λ context. context ≡ context_of policy.now) }
{
    let filter = policy.answer_filter.try_clone(alloc)?;
    let mut resolver = policy.resolver.try_clone(alloc)?;
    resolver.timeout = policy.timeout;
    Ok(PoolContext::new(resolver).with_answer_filter(filter))
}

/// What each connection is opened with, as a resolver's options of the same names say. It fails only
/// where memory runs out.
pub fn connect_options(alloc: Global, resolver: &ResolverOpts) -> Result<ConnectOptions, NoMemory>
    ensures { IfOk result (λ connect. connect ≡ connect_of resolver.now) }
{
    let avoid_local_udp_ports = resolver.avoid_local_udp_ports.try_clone(alloc)?;
    Ok(ConnectOptions {
        timeout: resolver.timeout,
        max_active_requests: resolver.max_active_requests,
        case_randomization: resolver.case_randomization,
        os_port_selection: resolver.os_port_selection,
        avoid_local_udp_ports,
    })
}

/// The options of each request: recursion is not desired (RFC 1035 section 4.1.1), DNSSEC records are
/// not asked for, and the payload and the case of letters are as the resolver's options say.
pub fn request_options(resolver: &ResolverOpts) -> DnsRequestOptions
    ensures { result ≡ request_options_of resolver.now }
{
    let mut options = DnsRequestOptions::standard();
    options.recursion_desired = false;
    options.edns_payload_len = resolver.edns_payload_len;
    options.case_randomization = resolver.case_randomization;
    options
}
