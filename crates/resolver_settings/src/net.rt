//! Networks of addresses in CIDR notation (RFC 4632 section 3.1, RFC 4291 section 2.3).
ghost use Rattle.std.specs.Prelude.{◌≡◌, ◌≤◌, ◌<◌, ◌-◌, ◌*◌, ◌/◌, ◌^◌, ◌↔◌, ◌&&◌, nat_le, IfOk, IsErr, IsTrue};
ghost use Rattle.resolver_settings.specs.Net.{IsWithinFamily, width_of, number_of, holds, contains, SharesPrefix, ipv4_net, ipv6_net};

use dns_core::{NoMemory, TryClone};
use std::alloc::Global;
use std::error::Error;
use std::fmt;
use std::marker::Model;
use std::net::{IpAddr, Ipv4Addr, Ipv6Addr};

/// A prefix has more bits than an address of its family: more than 32 (IPv4) or 128 (IPv6).
#[derive(Clone, Copy, Debug, PartialEq, Eq)]
pub struct PrefixTooLong;

impl fmt::Display for PrefixTooLong {
    ghost use Rattle.std.specs.Prelude.{Some, codes};

    ghost output = { λ _. Some (codes "the prefix is longer than an address") };

    fn fmt<W: fmt::Write>(&self, f: &mut fmt::Formatter<W>) -> fmt::Result {
        f.write_str("the prefix is longer than an address")
    }
}

impl Error for PrefixTooLong {}

/// The addresses that begin with the first `prefix` bits of an address. The bits behind them are
/// kept as given, and count for nothing. The numbers of these addresses go from `lowest` to
/// `highest`.
#[derive(Clone, Copy, PartialEq, Eq)]
pub struct IpNet {
    addr: IpAddr,
    prefix: u8,
    lowest: u128,
    highest: u128,
}

impl Model for IpNet {
    ghost use Rattle.std.specs.Prelude.{◌≡◌};
    ghost use Rattle.std.proofs.Common.{sym};
    ghost use Rattle.resolver_settings.specs.Net.{Network, IsWithinFamily, lowest_of, highest_of};

    ghost Value = { Network };

    ghost view = { λ n. record { addr = n.addr; prefix = n.prefix } };

    ghost invariant = { λ n. IsWithinFamily n.addr n.prefix × (n.lowest ≡ lowest_of n.addr n.prefix) × (n.highest ≡ highest_of n.addr n.prefix) };

    ghost inverse = { λ n. record {
      addr = n.addr;
      prefix = n.prefix;
      lowest = lowest_of n.addr n.prefix;
      highest = highest_of n.addr n.prefix;
    } };

    ghost inverse_ok = { λ n h i. record {
      addr = n.addr;
      prefix = n.prefix;
      lowest = sym h.1 i;
      highest = sym h.2 i;
    } };
}

impl fmt::Debug for IpNet {
    fn fmt<W: fmt::Write>(&self, f: &mut fmt::Formatter<W>) -> fmt::Result {
        f.debug_struct("IpNet")
            .field("addr", &self.addr)
            .field("prefix", &self.prefix)
            .finish()
    }
}

/// The bits of an address of this family.
fn width(addr: IpAddr) -> u8
    ensures { result ≡ width_of addr }
{
    match addr {
        IpAddr::V4(_) => 32,
        IpAddr::V6(_) => 128,
    }
}

/// The bits of an address, as a number.
pub(crate) fn number(addr: IpAddr) -> u128
    ensures number { result ≡ number_of addr }
    ensures within { result < 2 ^ width_of addr }
{
    match addr {
        IpAddr::V4(ip) => u128::from(ip.to_bits()),
        IpAddr::V6(ip) => ip.to_bits(),
    }
}

/// A number with its last bits cleared.
fn without_last(number: u128, behind: u32) -> u128
    requires { behind ≤ 128 }
    ensures { result ≡ number / 2 ^ behind * 2 ^ behind }
{
    let first = number.checked_shr(behind).unwrap_or(0);
    first.checked_shl(behind).unwrap_or(0)
}

/// The number whose last bits are set, and no others.
fn last_ones(behind: u32) -> u128
    requires { behind ≤ 128 }
    ensures { result ≡ 2 ^ behind - 1 }
{
    u128::MAX.checked_shr(128 - behind).unwrap_or(0)
}

/// Whether a number lies between two, these included.
fn is_between(number: u128, lowest: u128, highest: u128) -> bool
    ensures { result ≡ (nat_le lowest number && nat_le number highest) }
{
    lowest <= number && number <= highest
}

/// The network of these first bits of an address, which has as many or more.
fn net_of(addr: IpAddr, prefix: u8) -> IpNet
    requires { prefix ≤ width_of addr }
    ensures { result ≡ record { addr = addr; prefix = prefix } }
{
    let behind = u32::from(width(addr) - prefix);
    let lowest = without_last(number(addr), behind);
    let highest = lowest + last_ones(behind);
    IpNet {
        addr,
        prefix,
        lowest,
        highest,
    }
}

impl IpNet {
    /// The network of the addresses that share the first `prefix` bits of `addr`. It is refused
    /// exactly where the prefix is longer than an address of that family.
    pub fn new(addr: IpAddr, prefix: u8) -> Result<IpNet, PrefixTooLong>
        ensures too_long { IsErr result ↔ (width_of addr < prefix) }
        ensures net { IfOk result (λ n. n ≡ record { addr = addr; prefix = prefix }) }
    {
        if prefix > width(addr) {
            return Err(PrefixTooLong);
        }
        Ok(net_of(addr, prefix))
    }

    /// The address as given, with the bits behind the prefix.
    pub fn addr(&self) -> IpAddr
        ensures { result ≡ self.now.addr }
    {
        self.addr
    }

    /// How many bits the addresses have in common: 0 to 32 (IPv4) or 128 (IPv6).
    pub fn prefix(&self) -> u8
        ensures { result ≡ self.now.prefix }
    {
        self.prefix
    }

    /// Whether an address is of the network's family and begins with its first `prefix` bits.
    pub fn contains(&self, ip: IpAddr) -> bool
        ensures value { result ≡ contains self.now ip }
        ensures bits { IsTrue result ↔ SharesPrefix self.now ip }
    {
        self.holds(ip.is_ipv4(), number(ip))
    }

    /// Whether the network is of this family, and the address of this number lies in it.
    pub(crate) fn holds(&self, is_ipv4: bool, number: u128) -> bool
        ensures held { result ≡ holds self.now is_ipv4 number }
        ensures family { IsWithinFamily self.now.addr self.now.prefix }
    {
        self.addr.is_ipv4() == is_ipv4 && is_between(number, self.lowest, self.highest)
    }
}

/// The network of four octets.
pub(crate) fn ipv4_net(octets: [u8; 4], prefix: u8) -> IpNet
    requires { prefix ≤ 32 }
    ensures { result ≡ ipv4_net octets prefix }
{
    net_of(IpAddr::V4(Ipv4Addr::from_octets(octets)), prefix)
}

/// The network of eight segments.
pub(crate) fn ipv6_net(segments: [u16; 8], prefix: u8) -> IpNet
    requires { prefix ≤ 128 }
    ensures { result ≡ ipv6_net segments prefix }
{
    net_of(IpAddr::V6(Ipv6Addr::from_segments(segments)), prefix)
}

impl TryClone for IpNet {
    fn try_clone(&self, _alloc: Global) -> Result<Self, NoMemory> {
        Ok(*self)
    }
}
