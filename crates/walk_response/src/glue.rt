//! The addresses that a delegation gives (RFC 1034 section 5.3.3 step 4b).
ghost use Rattle.std.specs.Prelude.{◌≡◌, ◌&&◌, ◌||◌, ◌++◌, ◌∷◌, ◌↔◌, [], Contains, IfOk, IsTrue};
ghost use Rattle.std.specs.List.{list_any};
ghost use Rattle.std.specs.Option.{option_copied};
ghost use Rattle.std.specs.declared.net.ip_addr.IpAddr.{IpAddr};
ghost use Rattle.dns_core.specs.Classifying.{is_ns};
ghost use Rattle.dns_core.specs.Name.{same_names};
ghost use Rattle.resolution.specs.Records.{records};
ghost use Rattle.resolution.specs.Serving.{allowed, glue, is_delegation, target_below};
ghost use Rattle.resolver_settings.specs.Access.{denies};
ghost use Rattle.walk_response.specs.Lending.{SameElements, glue_of, lent_by, lent_for};

use dns_core::{Message, Name, NoMemory, RData, Record, is_subzone};
use resolver_settings::AccessControlSet;
use std::alloc::Global;
use std::net::IpAddr;

/// Whether a record is an NS record named so.
fn is_cut(r: &Record, name: &Name) -> bool
    ensures { result ≡ (is_ns r.now && same_names r.now.name name.now) }
{
    match &r.rdata {
        RData::NS(_) => r.name == *name,
        _ => false,
    }
}

fn any_cut(records: &[Record], name: &Name) -> bool
    ensures { result ≡ list_any (λ r. is_ns r && same_names r.name name.now) records.now }
{
    records.iter().any(|r| is_cut(r, name))
}

fn any_of(a: bool, b: bool, c: bool) -> bool
    ensures { result ≡ ((a || b) || c) }
{
    a || b || c
}

/// Whether a response delegates the name: it has an NS record named so.
pub fn is_delegation(message: &Message, name: &Name) -> bool
    ensures { result ≡ is_delegation message.now name.now }
{
    any_of(
        any_cut(message.answers.items(), name),
        any_cut(message.authorities.items(), name),
        any_cut(message.additionals.items(), name),
    )
}

/// The address that a record holds under the name of a server.
fn glue_of(target: &Name, r: &Record) -> Option<IpAddr>
    ensures { result ≡ glue_of target.now r.now }
{
    if r.name != *target {
        return None;
    }
    match &r.rdata {
        RData::A(ip) => Some(IpAddr::V4(*ip)),
        RData::AAAA(ip) => Some(IpAddr::V6(*ip)),
        _ => None,
    }
}

/// Whether an address is among those from `start` on.
fn is_known(ips: &[IpAddr], start: usize, ip: IpAddr) -> bool
    ensures { IsTrue result → Contains ips.now ip }
{
    ips.iter().skip(start).any(|known| *known == ip)
}

/// Adds an address that is not among those from `start` on.
fn add_new(ips: &mut Vec<IpAddr>, start: usize, ip: IpAddr) -> Result<(), NoMemory>
    ensures { IfOk result (λ _. SameElements ips.new.items (ips.old.items ++ ip ∷ [])) }
{
    if is_known(ips, start, ip) {
        return Ok(());
    }
    ips.push(ip)?;
    Ok(())
}

/// Adds the address of a record of the server.
fn add_lent(ips: &mut Vec<IpAddr>, start: usize, r: &Record, target: &Name) -> Result<(), NoMemory>
    ensures { IfOk result (λ _. SameElements ips.new.items (ips.old.items ++ lent_by target.now (r.now ∷ []))) }
{
    match glue_of(target, r) {
        Some(ip) => add_new(ips, start, ip),
        None => Ok(()),
    }
}

/// Adds the addresses of a server in a section.
fn add_addresses(
    ips: &mut Vec<IpAddr>,
    start: usize,
    section: &[Record],
    target: &Name,
) -> Result<(), NoMemory>
    ensures { IfOk result (λ _. SameElements ips.new.items (ips.old.items ++ lent_by target.now section.now)) }
{
    for r in section {
        add_lent(ips, start, r, target)?;
    }
    Ok(())
}

/// A server lends its addresses, in the order of the sections, each once.
fn add_glue(ips: &mut Vec<IpAddr>, message: &Message, target: &Name) -> Result<(), NoMemory>
    ensures { IfOk result (λ _. SameElements ips.new.items (ips.old.items ++ lent_by target.now (records message.now))) }
{
    let start = ips.len();
    add_addresses(ips, start, message.answers.items(), target)?;
    add_addresses(ips, start, message.authorities.items(), target)?;
    add_addresses(ips, start, message.additionals.items(), target)
}

/// The server that an NS record names, if the record is at or below the base.
fn target_below<'a>(base: &Name, r: &'a Record) -> Option<&'a Name>
    ensures { option_copied result ≡ target_below base.now r.now }
{
    match &r.rdata {
        RData::NS(target) => {
            if base.is_fqdn() && is_subzone(base, &r.name) {
                Some(target)
            } else {
                None
            }
        }
        _ => None,
    }
}

/// The server that a record names lends its addresses.
fn lend_named(
    ips: &mut Vec<IpAddr>,
    message: &Message,
    r: &Record,
    base: &Name,
) -> Result<(), NoMemory>
    ensures { IfOk result (λ _. SameElements ips.new.items (ips.old.items ++ lent_for (records message.now) base.now (r.now ∷ []))) }
{
    match target_below(base, r) {
        Some(target) => add_glue(ips, message, target),
        None => Ok(()),
    }
}

/// The servers that the NS records of a section name lend theirs.
fn lend_section(
    ips: &mut Vec<IpAddr>,
    message: &Message,
    section: &[Record],
    base: &Name,
) -> Result<(), NoMemory>
    ensures { IfOk result (λ _. SameElements ips.new.items (ips.old.items ++ lent_for (records message.now) base.now section.now)) }
{
    for r in section {
        lend_named(ips, message, r, base)?;
    }
    Ok(())
}

/// Leaves out the addresses that the filter denies.
fn keep_allowed(ips: &mut Vec<IpAddr>, filter: &AccessControlSet)
    ensures { ips.new.items ≡ allowed (denies filter.now) ips.old.items }
{
    ips.retain(|ip| !filter.denied(*ip));
}

/// The addresses of the servers that a response names for the name, in the order of their NS
/// records, without those that the filter denies. An address that two of these lend stands there
/// twice.
pub fn collect_glue(
    alloc: Global,
    message: &Message,
    name: &Name,
    filter: &AccessControlSet,
) -> Result<Vec<IpAddr>, NoMemory>
    ensures { IfOk result (λ ips. (ip : IpAddr) → Contains ips.items ip ↔ Contains (allowed (denies filter.now) (glue message.now name.now)) ip) }
{
    let base = name.base_name(alloc)?;
    let mut ips = Vec::new(alloc);
    lend_section(&mut ips, message, message.answers.items(), &base)?;
    lend_section(&mut ips, message, message.authorities.items(), &base)?;
    lend_section(&mut ips, message, message.additionals.items(), &base)?;
    keep_allowed(&mut ips, filter);
    Ok(ips)
}
