//! By what a recursor resolves: its roots, its filters and its limits, as one value.
ghost use Rattle.std.specs.Prelude.{◌≡◌, IfOk, min};
ghost use Rattle.recursor_types.specs.Options.{server_filter_of, answer_filter_of};
ghost use Rattle.recursor_types.specs.Policy.{policy_of, resolver_of, with_patience};

use crate::options::RecursorOptions;
use dns_core::{Delays, Ips, NoMemory, TryClone};
use resolver_settings::{AccessControlSet, AccessControlSetBuilder, ResolverOpts, TtlConfig};
use std::alloc::Global;
use std::net::IpAddr;

/// All by which a recursor resolves, besides what servers tell it. The roots are asked whatever the
/// server filter says; it denies other servers, and the answer filter denies the addresses of answers.
/// A lookup ends at its timeout, in microseconds, and a call that waits is given up after as many polls
/// as the least patience so far. A policy is strict where a denied name ends the walk (RFC 8020, RFC
/// 9156). The resolver says how servers are asked.
#[derive(Debug)]
pub struct Policy {
    pub roots: Ips,
    pub server_filter: AccessControlSet,
    pub answer_filter: AccessControlSet,
    pub ttl_bounds: TtlConfig,
    pub timeout: u64,
    pub patience: u32,
    pub recursion_limit: u8,
    pub ns_recursion_limit: u8,
    pub strict: bool,
    pub response_cache_size: u64,
    pub first_delays: Delays,
    pub resolver: ResolverOpts,
}

impl Drop for Policy {
    fn drop(self) {
        let Policy {
            roots: _,
            server_filter: _,
            answer_filter: _,
            ttl_bounds: _,
            timeout: _,
            patience: _,
            recursion_limit: _,
            ns_recursion_limit: _,
            strict: _,
            response_cache_size: _,
            first_delays: _,
            resolver: _,
        } = self;
    }
}

/// The filter of servers that the options say.
fn server_filter(alloc: Global, options: &RecursorOptions) -> Result<AccessControlSet, NoMemory>
    ensures { IfOk result (λ filter. filter ≡ server_filter_of options.now) }
{
    let builder = AccessControlSetBuilder::new(alloc, "server");
    let builder = builder.allow(alloc, options.allow_server.items())?;
    let builder = builder.deny(alloc, options.deny_server.items())?;
    Ok(builder.build())
}

/// The filter of the addresses of answers that the options say.
fn answer_filter(alloc: Global, options: &RecursorOptions) -> Result<AccessControlSet, NoMemory>
    ensures { IfOk result (λ filter. filter ≡ answer_filter_of options.now) }
{
    let builder = AccessControlSetBuilder::new(alloc, "answers");
    let builder = builder.allow(alloc, options.allow_answers.items())?;
    let builder = builder.deny(alloc, options.deny_answers.items())?;
    Ok(builder.build())
}

/// How servers are asked by a recursor of these options: one at a time, the fastest first, with EDNS,
/// and without the wish that they recurse. It fails where memory runs out alone.
fn resolver_options(alloc: Global, options: &RecursorOptions) -> Result<ResolverOpts, NoMemory>
    ensures { IfOk result (λ resolver. resolver ≡ resolver_of options.now) }
{
    let mut resolver = ResolverOpts::standard(alloc)?;
    resolver.ndots = 0;
    resolver.edns0 = true;
    resolver.edns_payload_len = options.edns_payload_len;
    resolver.num_concurrent_reqs = 1;
    resolver.recursion_desired = false;
    resolver.case_randomization = options.case_randomization;
    resolver.avoid_local_udp_ports = options.avoid_local_udp_ports.try_clone(alloc)?;
    Ok(resolver)
}

impl Policy {
    /// These roots, and what the options say; no call was given up yet. It fails where memory runs out
    /// alone.
    pub fn new(
        alloc: Global,
        roots: &[IpAddr],
        options: &RecursorOptions,
    ) -> Result<Policy, NoMemory>
        ensures { IfOk result (λ policy. policy ≡ policy_of roots.now options.now) }
    {
        let roots = Vec::from_slice(alloc, roots)?;
        let server_filter = server_filter(alloc, options)?;
        let answer_filter = answer_filter(alloc, options)?;
        let ttl_bounds = options.cache_policy.try_clone(alloc)?;
        let first_delays = options.first_delays.try_clone(alloc)?;
        let resolver = resolver_options(alloc, options)?;
        Ok(Policy {
            roots: Ips::new(roots),
            server_filter,
            answer_filter,
            ttl_bounds,
            timeout: 5_000_000,
            patience: u32::MAX,
            recursion_limit: options.recursion_limit,
            ns_recursion_limit: options.ns_recursion_limit,
            strict: true,
            response_cache_size: options.response_cache_size,
            first_delays,
            resolver,
        })
    }

    /// With this patience, where it is less.
    pub fn with_patience(&mut self, patience: u32)
        ensures { self.new ≡ with_patience (min self.old.patience patience) self.old }
    {
        self.patience = self.patience.min(patience);
    }
}
