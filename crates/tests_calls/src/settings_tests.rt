//! Settings that are made where there is memory.

use crate::settings_samples::{bounds, encrypted, resolver_config};
use dns_core::{Name, NameError, NoMemory, Ports, Protocol, RecordType};
use resolver_settings::{
    IpNet, NameServerConfig, ResolverConfig, ResolverOpts, ServerOrderingStrategy,
    recommended_server_filters,
};
use std::alloc::Global;
use std::net::{IpAddr, Ipv4Addr};
use std::test::Fail;
use tests_samples::{comes_to, filter, ip, is_wanted, options, plain};

fn net(first: u8, second: u8, prefix: u8) -> Result<IpNet, Fail> {
    let addr = IpAddr::V4(Ipv4Addr::new(first, second, 0, 0));
    Ok(IpNet::new(addr, prefix)?)
}

/// Whether 10.1.0.0 and 10.2.0.0 are denied where 10.0.0.0/8 is, and 10.1.0.0/16 is allowed.
fn denied(alloc: Global) -> Result<(bool, bool), Fail> {
    let set = filter(alloc, &[net(10, 0, 8)?], &[net(10, 1, 16)?])?;
    let inner = set.denied(IpAddr::V4(Ipv4Addr::new(10, 1, 0, 0)));
    let outer = set.denied(IpAddr::V4(Ipv4Addr::new(10, 2, 0, 0)));
    Ok((inner, outer))
}

/// The first and the last of the recommended networks, and how many there are.
fn recommended(alloc: Global) -> Result<(usize, Option<IpNet>), NoMemory> {
    let nets = recommended_server_filters(alloc)?;
    Ok((nets.len(), nets.first().copied()))
}

/// The bounds for answers of A, and for denials of NS.
fn bounds_of(alloc: Global) -> Result<((u64, u64), (u64, u64)), NoMemory> {
    let config = bounds(alloc)?;
    Ok((
        config.positive_response_ttl_bounds(RecordType::A),
        config.negative_response_ttl_bounds(RecordType::NS),
    ))
}

#[test]
fn networks_and_bounds_are_set(rt: HostRuntime) -> Result<(), Fail> {
    let alloc = rt.alloc();
    is_wanted(denied(alloc)?, (false, true))?;
    comes_to(recommended(alloc), (22, Some(net(127, 0, 8)?)))?;
    comes_to(bounds_of(alloc), ((5, 6), (3, 4)))
}

/// The port and the protocol of a way to a server.
fn way_at(server: &NameServerConfig, place: usize) -> Option<(u16, Protocol)> {
    match server.connections.items().get(place) {
        Some(way) => Some((way.port, way.protocol.to_protocol())),
        None => None,
    }
}

/// Ways, in their order.
type Ways = [Option<(u16, Protocol)>; 5];

/// The first five ways to a server.
fn ways(server: Result<NameServerConfig, NoMemory>) -> Result<Ways, NoMemory> {
    let server = server?;
    Ok([
        way_at(&server, 0),
        way_at(&server, 1),
        way_at(&server, 2),
        way_at(&server, 3),
        way_at(&server, 4),
    ])
}

const UDP: Option<(u16, Protocol)> = Some((53, Protocol::Udp));

const TCP: Option<(u16, Protocol)> = Some((53, Protocol::Tcp));

const TLS: Option<(u16, Protocol)> = Some((853, Protocol::Tls));

const QUIC: Option<(u16, Protocol)> = Some((853, Protocol::Quic));

#[test]
fn servers_are_reached_in_these_ways(rt: HostRuntime) -> Result<(), Fail> {
    let alloc = rt.alloc();
    let udp = NameServerConfig::udp(alloc, ip(1));
    comes_to(ways(udp), [UDP, None, None, None, None])?;
    let tcp = NameServerConfig::tcp(alloc, ip(1));
    comes_to(ways(tcp), [TCP, None, None, None, None])?;
    comes_to(ways(plain(alloc)), [UDP, TCP, None, None, None])?;
    comes_to(ways(encrypted(alloc)), [UDP, TCP, TLS, QUIC, None])
}

fn wanted_options(alloc: Global) -> ResolverOpts {
    ResolverOpts {
        ndots: 1,
        timeout: 5_000_000,
        attempts: 2,
        edns0: false,
        edns_payload_len: 1232,
        num_concurrent_reqs: 2,
        server_ordering_strategy: ServerOrderingStrategy::QueryStatistics,
        recursion_desired: true,
        preserve_intermediates: true,
        try_tcp_on_error: false,
        case_randomization: false,
        max_active_requests: 32,
        os_port_selection: false,
        avoid_local_udp_ports: Ports::empty(alloc),
        enable_per_name_server_metrics: false,
    }
}

fn are_standard(alloc: Global) -> Result<bool, NoMemory> {
    Ok(options(alloc)? == wanted_options(alloc))
}

fn labels(domain: Option<&Name>) -> Option<u8> {
    match domain {
        Some(name) => Some(name.num_labels()),
        None => None,
    }
}

/// How many servers and search domains a configuration has, and how many labels its domain.
type Parts = (usize, usize, Option<u8>);

fn parts(config: ResolverConfig) -> Parts {
    (
        config.name_servers().len(),
        config.search().len(),
        labels(config.domain()),
    )
}

fn parts_of(config: Result<ResolverConfig, NameError>) -> Result<Parts, NameError> {
    Ok(parts(config?))
}

#[test]
fn options_and_configurations_are_made(rt: HostRuntime) -> Result<(), Fail> {
    let alloc = rt.alloc();
    comes_to(are_standard(alloc), true)?;
    comes_to(parts_of(resolver_config(alloc)), (1, 2, Some(1)))
}
