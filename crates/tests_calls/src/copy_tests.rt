//! Copies of values of all types.

use crate::copy_samples::{
    addresses, ask, asked, config, connect_options, denial, foreign, forward, message, no_records,
    others, question, text, told,
};
use crate::settings_samples::{bounds, encrypted, resolver_config};
use dns_core::{
    DnsError, IoKind, Label, Letter, Name, NetError, NoMemory, ProtocolConfig, ResponseCode,
    ToldOutcome, TryClone, try_clone_all,
};
use resolver_settings::{AccessControlSet, IpNet};
use server_core::Order;
use std::alloc::Global;
use std::fmt;
use std::net::{IpAddr, Ipv4Addr};
use std::test::Fail;
use tests_samples::{domain, filter, ip, options, query, request, soa};

/// The copy of a value equals it.
fn is_copied<T: TryClone + PartialEq>(alloc: Global, value: T) -> Result<(), Fail> {
    let copy = value.try_clone(alloc)?;
    if copy == value {
        return Ok(());
    }
    Err(Fail::new(format_args!("another copy")))
}

/// The same of a value that has to be made. It is handed over as it comes: a body that asks for many
/// values itself is dear to prove.
fn is_made_and_copied<T: TryClone + PartialEq, E: fmt::Display + Drop>(
    alloc: Global,
    made: Result<T, E>,
) -> Result<(), Fail> {
    match made {
        Ok(value) => is_copied(alloc, value),
        Err(error) => Err(Fail::new(format_args!("{error}"))),
    }
}

/// Denies 10.0.0.0/8, but allows 10.1.0.0/16.
fn networks(alloc: Global) -> Result<AccessControlSet, Fail> {
    let denied = IpNet::new(IpAddr::V4(Ipv4Addr::new(10, 0, 0, 0)), 8)?;
    let allowed = IpNet::new(IpAddr::V4(Ipv4Addr::new(10, 1, 0, 0)), 16)?;
    Ok(filter(alloc, &[denied], &[allowed])?)
}

fn label(alloc: Global) -> Result<Label, NoMemory> {
    let mut letters = Vec::new(alloc);
    letters.push(Letter::new(b'a'))?;
    Ok(Label::new(letters))
}

/// The copies of two numbers are these.
fn are_copied(alloc: Global) -> Result<(), Fail> {
    let copies = try_clone_all(alloc, &[7_u16, 9_u16])?;
    if copies.as_slice() == [7, 9].as_slice() {
        return Ok(());
    }
    Err(Fail::new(format_args!("other copies")))
}

/// When two values are the same, where `==` is coarser or missing.
trait Same: TryClone {
    fn is_same(&self, other: &Self) -> bool;
}

/// A set of networks by whether the first that it denies is denied, and the one that it allows.
impl Same for AccessControlSet {
    fn is_same(&self, other: &Self) -> bool {
        let outer = IpAddr::V4(Ipv4Addr::new(10, 2, 0, 0));
        let inner = IpAddr::V4(Ipv4Addr::new(10, 1, 0, 0));
        self.denied(outer) == other.denied(outer) && self.denied(inner) == other.denied(inner)
    }
}

/// A name with its letters in their case.
impl Same for Name {
    fn is_same(&self, other: &Self) -> bool {
        self.eq_case(other)
    }
}

/// An order with the names in it in their case.
impl Same for Order {
    fn is_same(&self, other: &Self) -> bool {
        self.identical(other)
    }
}

/// The copy of a value is the same.
fn is_same_again<T: Same>(alloc: Global, value: T) -> Result<(), Fail> {
    let copy = value.try_clone(alloc)?;
    if copy.is_same(&value) {
        return Ok(());
    }
    Err(Fail::new(format_args!("another copy")))
}

#[test]
fn numbers_names_and_lists_are_copied(rt: HostRuntime) -> Result<(), Fail> {
    let alloc = rt.alloc();
    is_copied(alloc, 7_u8)?;
    is_copied(alloc, 7_u16)?;
    is_copied(alloc, 7_u64)?;
    is_copied(alloc, Letter::new(b'a'))?;
    is_made_and_copied(alloc, label(alloc))?;
    is_copied(alloc, ip(1))?;
    is_copied(alloc, Some(ip(1)))?;
    is_made_and_copied(alloc, text(alloc))?;
    is_made_and_copied(alloc, soa(alloc, "m."))?;
    is_made_and_copied(alloc, addresses(alloc))?;
    is_made_and_copied(alloc, others(alloc))?;
    are_copied(alloc)?;
    is_same_again(alloc, domain(alloc, "WWW.example.com.")?)
}

#[test]
fn messages_and_entries_are_copied(rt: HostRuntime) -> Result<(), Fail> {
    let alloc = rt.alloc();
    is_made_and_copied(alloc, query(alloc, "a."))?;
    is_made_and_copied(alloc, message(alloc))?;
    is_copied(alloc, ToldOutcome::Connected)?;
    is_made_and_copied(alloc, told(alloc))?;
    is_made_and_copied(alloc, asked(alloc))
}

#[test]
fn errors_are_copied(rt: HostRuntime) -> Result<(), Fail> {
    let alloc = rt.alloc();
    is_made_and_copied(alloc, forward(alloc))?;
    is_made_and_copied(alloc, no_records(alloc))?;
    is_copied(alloc, DnsError::ResponseCode(ResponseCode::ServFail))?;
    is_made_and_copied(alloc, denial(alloc))?;
    is_made_and_copied(alloc, foreign(alloc))?;
    is_copied(alloc, NetError::Msg(text(alloc)?))?;
    is_copied(alloc, NetError::Io(IoKind::Refused))
}

#[test]
fn requests_and_ways_to_connect_are_copied(rt: HostRuntime) -> Result<(), Fail> {
    let alloc = rt.alloc();
    let server_name = text(alloc)?;
    is_copied(alloc, ProtocolConfig::Tls { server_name })?;
    is_copied(alloc, config(ProtocolConfig::Udp))?;
    is_made_and_copied(alloc, connect_options(alloc))?;
    is_made_and_copied(alloc, request(alloc, "a.", false))?;
    is_made_and_copied(alloc, question(alloc))
}

#[test]
fn settings_are_copied(rt: HostRuntime) -> Result<(), Fail> {
    let alloc = rt.alloc();
    is_made_and_copied(alloc, IpNet::new(ip(1), 8))?;
    is_same_again(alloc, networks(alloc)?)?;
    is_made_and_copied(alloc, encrypted(alloc))?;
    is_made_and_copied(alloc, resolver_config(alloc))?;
    is_made_and_copied(alloc, options(alloc))?;
    is_made_and_copied(alloc, bounds(alloc))
}

#[test]
fn orders_are_copied(rt: HostRuntime) -> Result<(), Fail> {
    let alloc = rt.alloc();
    is_same_again(alloc, ask(alloc)?)?;
    let open = Order::Open {
        ip: ip(1),
        config: config(ProtocolConfig::Udp),
    };
    is_same_again(alloc, open)?;
    is_same_again(alloc, Order::Sleep { until: 9 })
}
