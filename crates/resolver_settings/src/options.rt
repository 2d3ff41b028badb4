//! The options of a resolver.
ghost use Rattle.std.specs.Prelude.{◌≡◌, IfOk};
ghost use Rattle.resolver_settings.specs.Options.{standard_options};

use dns_core::{NoMemory, Ports, TryClone};
use std::alloc::Global;

/// In which order servers are asked.
#[derive(Clone, Copy, Debug, PartialEq, Eq)]
pub enum ServerOrderingStrategy {
    /// By how fast they answered.
    QueryStatistics,

    /// As they were given.
    UserProvidedOrder,

    /// Each in turn first.
    RoundRobin,
}

impl Default for ServerOrderingStrategy {
    ghost use Rattle.std.specs.Prelude.{◌≡◌};
    ghost use Rattle.resolver_settings.specs.declared.options.ServerOrderingStrategy.TheVariants.{QueryStatistics};

    ghost is_default = { λ strategy. strategy ≡ QueryStatistics };

    fn default() -> Self {
        ServerOrderingStrategy::QueryStatistics
    }
}

/// How a resolver asks.
#[derive(Debug, PartialEq, Eq)]
pub struct ResolverOpts {
    /// With how many dots a name is tried as it stands before the search list is.
    pub ndots: usize,

    /// For how long a request may go unanswered, in microseconds.
    pub timeout: u64,

    /// How often a question is asked again after a failure.
    pub attempts: usize,

    /// Whether EDNS is used (RFC 6891).
    pub edns0: bool,

    /// The largest response that is asked for over UDP, in bytes (RFC 6891 section 6.2.3).
    pub edns_payload_len: u16,

    /// How many servers are asked side by side.
    pub num_concurrent_reqs: usize,

    pub server_ordering_strategy: ServerOrderingStrategy,

    /// Whether servers are asked to recurse (RFC 1035 section 4.1.1).
    pub recursion_desired: bool,

    /// Whether an answer keeps the aliases that led to it.
    pub preserve_intermediates: bool,

    /// Whether a question goes over TCP after an error over UDP.
    pub try_tcp_on_error: bool,

    /// Whether the letters of a question get a case by chance.
    pub case_randomization: bool,

    /// How many requests a connection carries at a time.
    pub max_active_requests: u32,

    /// Whether the operating system picks the local port of UDP.
    pub os_port_selection: bool,

    /// Local ports that UDP does not use, rising.
    pub avoid_local_udp_ports: Ports,

    pub enable_per_name_server_metrics: bool,
}

impl Drop for ResolverOpts {
    fn drop(self) {
        let ResolverOpts {
            ndots: _,
            timeout: _,
            attempts: _,
            edns0: _,
            edns_payload_len: _,
            num_concurrent_reqs: _,
            server_ordering_strategy: _,
            recursion_desired: _,
            preserve_intermediates: _,
            try_tcp_on_error: _,
            case_randomization: _,
            max_active_requests: _,
            os_port_selection: _,
            avoid_local_udp_ports: _,
            enable_per_name_server_metrics: _,
        } = self;
    }
}

impl ResolverOpts {
    /// Five seconds, two attempts, two requests at a time, 32 open, and no EDNS; if it is used, its
    /// payload is 1,232 bytes.
    pub fn standard(alloc: Global) -> Result<Self, NoMemory>
        ensures { IfOk result (λ options. options ≡ standard_options) }
    {
        Ok(ResolverOpts {
            ndots: 1,
            timeout: 5_000_000,
            attempts: 2,
            edns0: false,
            edns_payload_len: 1232,
            num_concurrent_reqs: 2,
            server_ordering_strategy: ServerOrderingStrategy::QueryStatistics,
            recursion_desired: true,
            preserve_intermediates: true,
            try_tcp_on_error: false,
            case_randomization: false,
            max_active_requests: 32,
            os_port_selection: false,
            avoid_local_udp_ports: Ports::empty(alloc),
            enable_per_name_server_metrics: false,
        })
    }
}

impl TryClone for ResolverOpts {
    fn try_clone(&self, alloc: Global) -> Result<Self, NoMemory> {
        let avoid_local_udp_ports = self.avoid_local_udp_ports.try_clone(alloc)?;
        Ok(ResolverOpts {
            ndots: self.ndots,
            timeout: self.timeout,
            attempts: self.attempts,
            edns0: self.edns0,
            edns_payload_len: self.edns_payload_len,
            num_concurrent_reqs: self.num_concurrent_reqs,
            server_ordering_strategy: self.server_ordering_strategy,
            recursion_desired: self.recursion_desired,
            preserve_intermediates: self.preserve_intermediates,
            try_tcp_on_error: self.try_tcp_on_error,
            case_randomization: self.case_randomization,
            max_active_requests: self.max_active_requests,
            os_port_selection: self.os_port_selection,
            avoid_local_udp_ports,
            enable_per_name_server_metrics: self.enable_per_name_server_metrics,
        })
    }
}
