//! What the filter of answers and a zone leave of a message, by plain tests of its records.
ghost use Rattle.std.specs.Prelude.{◌≡◌, ◌&&◌, ◌||◌, ◌==◌, ◌≤◌, not, length, drop, filter, fold};
ghost use Rattle.std.specs.List.{list_any};
ghost use Rattle.dns_core.specs.Name.{is_suffix, same_names};
ghost use Rattle.dns_core.specs.Classifying.{is_ns};
ghost use Rattle.resolver_settings.specs.Access.{denies};
ghost use Rattle.resolution.specs.Names.{is_above};
ghost use Rattle.resolution.specs.Records.{address, records};
ghost use Rattle.resolution.specs.Class.{has_no_data_for};
ghost use Rattle.resolution.specs.Verdict.{holds_denied};
ghost use Rattle.resolution.specs.Life.{least_ttl};
ghost use Rattle.resolution.specs.Serving.{is_delegation};
ghost use Rattle.resolution.specs.Ending.{same_ip};
ghost use Rattle.resolution_reference.specs.Plain.{apex, asks, among, holds, passes, kept, counts, names_target, holds_for, answers_with, is_answer, nothing_is_left, lesser};

use dns_core::{Label, Message, Name, RData, Record};
use resolver_settings::AccessControlSet;
use std::net::IpAddr;

/// A message, seen from a zone by the labels of its apex, and the filter of the addresses of answers.
#[derive(Drop)]
pub struct Kept<'d, 'z, 'm> {
    pub denied: &'d AccessControlSet,
    pub zone: &'z [Label],
    pub message: &'m Message,
}

pub(crate) fn is_same_address(a: IpAddr, b: IpAddr) -> bool
    ensures { result ≡ same_ip a b }
{
    match (a, b) {
        (IpAddr::V4(a), IpAddr::V4(b)) => a.octets() == b.octets(),
        (IpAddr::V6(a), IpAddr::V6(b)) => a.segments() == b.segments(),
        _ => false,
    }
}

/// Whether an address is one of these.
pub fn is_among(ips: &[IpAddr], ip: IpAddr) -> bool
    ensures { result ≡ among ips.now ip }
{
    ips.iter().any(|other| is_same_address(ip, *other))
}

/// Whether the labels of a zone are the last of a name's.
pub fn is_suffix(zone: &[Label], name: &[Label]) -> bool
    ensures { result ≡ is_suffix zone.now name.now }
{
    zone.len() <= name.len() && zone == &name[name.len() - zone.len()..]
}

/// Whether the zone is at or above the name.
pub fn is_above(zone: &[Label], name: &Name) -> bool
    ensures { result ≡ is_above (apex zone.now) name.now }
{
    name.is_fqdn() && is_suffix(zone, name.labels())
}

/// Whether a name is the fully qualified one with these labels.
pub(crate) fn is_apex(name: &Name, labels: &[Label]) -> bool
    ensures { result ≡ same_names name.now (apex labels.now) }
{
    name.labels() == labels && name.is_fqdn()
}

fn address(r: &Record) -> Option<IpAddr>
    ensures { result ≡ address r.now }
{
    match &r.rdata {
        RData::A(ip) => Some(IpAddr::V4(*ip)),
        RData::AAAA(ip) => Some(IpAddr::V6(*ip)),
        _ => None,
    }
}

/// Whether a record holds the address.
fn holds(r: &Record, ip: IpAddr) -> bool
    ensures { result ≡ holds ip r.now }
{
    match address(r) {
        Some(held) => is_same_address(ip, held),
        None => false,
    }
}

fn holds_denied(denied: &AccessControlSet, r: &Record) -> bool
    ensures { result ≡ holds_denied (denies denied.now) r.now }
{
    match address(r) {
        Some(held) => denied.denied(held),
        None => false,
    }
}

/// Whether a record is an NS record named so.
fn is_ns_of(r: &Record, labels: &[Label]) -> bool
    ensures { result ≡ (is_ns r.now && same_names r.now.name (apex labels.now)) }
{
    match &r.rdata {
        RData::NS(_) => is_apex(&r.name, labels),
        _ => false,
    }
}

/// Whether an NS record at or below the base names the target.
fn names_target(r: &Record, base: &[Label], name: &Name) -> bool
    ensures { result ≡ names_target (apex base.now) name.now r.now }
{
    match &r.rdata {
        RData::NS(target) => is_above(base, &r.name) && *name == *target,
        _ => false,
    }
}

/// Without its first label, if it has one.
pub fn base_of(labels: &[Label]) -> &[Label]
    ensures { result.now ≡ drop 1 labels.now }
{
    if labels.is_empty() {
        labels
    } else {
        &labels[1..]
    }
}

fn is_emptied(answers: bool, answers_left: bool, authorities: bool, authorities_left: bool) -> bool
    ensures { result ≡ nothing_is_left answers answers_left authorities authorities_left }
{
    (answers && !answers_left) || (!answers_left && authorities && !authorities_left)
}

fn any_holds(rs: &[Record], ip: IpAddr) -> bool
    ensures { result ≡ list_any (holds ip) rs.now }
{
    rs.iter().any(|r| holds(r, ip))
}

fn is_neither(a: bool, b: bool) -> bool
    ensures { result ≡ (not a && not b) }
{
    !a && !b
}

fn any_of(a: bool, b: bool, c: bool) -> bool
    ensures { result ≡ (a || b || c) }
{
    a || b || c
}

/// The least TTL so far, with one record more.
fn lesser(least: Option<u32>, r: &Record) -> Option<u32>
    ensures { result ≡ lesser least r.now }
{
    match least {
        Some(n) => Some(n.min(r.ttl)),
        None => Some(r.ttl),
    }
}

impl Kept<'_, '_, '_> {
    /// Whether the filter and the zone leave a record.
    pub fn passes(&self, r: &Record) -> bool
        ensures { result ≡ passes self.now r.now }
    {
        !holds_denied(self.denied, r) && is_above(self.zone, &r.name)
    }

    fn any_allowed(&self, rs: &[Record]) -> bool
        ensures { result ≡ list_any (λ r. not (holds_denied (denies self.now.denied.now) r)) rs.now }
    {
        rs.iter().any(|r| !holds_denied(self.denied, r))
    }

    fn any_left(&self, rs: &[Record]) -> bool
        ensures { result ≡ list_any (passes self.now) rs.now }
    {
        rs.iter().any(|r| self.passes(r))
    }

    /// Whether something is left of the answers, or of the authorities of a message without them.
    pub fn counts(&self) -> bool
        ensures { result ≡ counts self.now }
    {
        let answers = self.message.answers.items();
        let authorities = self.message.authorities.items();
        let allowed_answers = self.any_allowed(answers);
        let allowed_authorities = self.any_allowed(authorities);
        let denied = is_emptied(
            !answers.is_empty(),
            allowed_answers,
            !authorities.is_empty(),
            allowed_authorities,
        );
        let outside = is_emptied(
            allowed_answers,
            self.any_left(answers),
            allowed_authorities,
            self.any_left(authorities),
        );
        is_neither(denied, outside)
    }

    fn any_ns(&self, rs: &[Record], labels: &[Label]) -> bool
        ensures { result ≡ list_any (λ r. passes self.now r && (is_ns r && same_names r.name (apex labels.now))) rs.now }
    {
        rs.iter().any(|r| self.passes(r) && is_ns_of(r, labels))
    }

    /// Whether a delegation of the name is left.
    pub fn is_delegation(&self, labels: &[Label]) -> bool
        ensures { result ≡ is_delegation (kept self.now) (apex labels.now) }
    {
        any_of(
            self.any_ns(self.message.answers.items(), labels),
            self.any_ns(self.message.authorities.items(), labels),
            self.any_ns(self.message.additionals.items(), labels),
        )
    }

    fn any_target(&self, rs: &[Record], base: &[Label], name: &Name) -> bool
        ensures { result ≡ list_any (λ r. passes self.now r && names_target (apex base.now) name.now r) rs.now }
    {
        rs.iter()
            .any(|r| self.passes(r) && names_target(r, base, name))
    }

    /// Whether an NS record that is left, at or below the base, names the target.
    fn is_target(&self, base: &[Label], name: &Name) -> bool
        ensures { result ≡ list_any (names_target (apex base.now) name.now) (records (kept self.now)) }
    {
        any_of(
            self.any_target(self.message.answers.items(), base, name),
            self.any_target(self.message.authorities.items(), base, name),
            self.any_target(self.message.additionals.items(), base, name),
        )
    }

    fn any_under(&self, rs: &[Record], delegation: &Kept, base: &[Label], ip: IpAddr) -> bool
        ensures { result ≡ list_any (λ r. passes self.now r && holds_for (kept delegation.now) (apex base.now) ip r) rs.now }
    {
        rs.iter().any(|r| self.passes(r) && (holds(r, ip) && delegation.is_target(base, &r.name)))
    }

    /// Whether an address record that is left has the address under the name of a server of the
    /// delegation.
    pub fn has_under(&self, delegation: &Kept, base: &[Label], ip: IpAddr) -> bool
        ensures { result ≡ list_any (holds_for (kept delegation.now) (apex base.now) ip) (records (kept self.now)) }
    {
        any_of(
            self.any_under(self.message.answers.items(), delegation, base, ip),
            self.any_under(self.message.authorities.items(), delegation, base, ip),
            self.any_under(self.message.additionals.items(), delegation, base, ip),
        )
    }

    fn any_glue(&self, rs: &[Record], base: &[Label], ip: IpAddr) -> bool
        ensures { result ≡ list_any (λ r. passes self.now r && holds_for (kept self.now) (apex base.now) ip r) rs.now }
    {
        rs.iter().any(|r| self.passes(r) && (holds(r, ip) && self.is_target(base, &r.name)))
    }

    /// Whether the delegation has the address beside it, under the name of one of its servers.
    pub fn has_glue(&self, base: &[Label], ip: IpAddr) -> bool
        ensures { result ≡ list_any (holds_for (kept self.now) (apex base.now) ip) (records (kept self.now)) }
    {
        any_of(
            self.any_glue(self.message.answers.items(), base, ip),
            self.any_glue(self.message.authorities.items(), base, ip),
            self.any_glue(self.message.additionals.items(), base, ip),
        )
    }

    /// Whether the filter leaves something of the answer, and the answers hold the address, which
    /// it allows.
    pub fn answers_with(&self, ip: IpAddr) -> bool
        ensures { result ≡ answers_with self.now ip }
    {
        let answers = self.message.answers.items();
        let authorities = self.message.authorities.items();
        let denied = is_emptied(
            !answers.is_empty(),
            self.any_allowed(answers),
            !authorities.is_empty(),
            self.any_allowed(authorities),
        );
        is_neither(denied, self.denied.denied(ip)) & any_holds(answers, ip)
    }

    /// The least TTL so far, with these records, as far as they are left.
    fn least_with(&self, least: Option<u32>, rs: &[Record]) -> Option<u32>
        ensures { result ≡ fold lesser least (filter (passes self.now) rs.now) }
    {
        rs.iter()
            .filter(|r| self.passes(r))
            .fold(least, |n, r| lesser(n, r))
    }

    /// The least TTL of the records that are left, 0 without records.
    pub fn least_ttl(&self) -> u32
        ensures { result ≡ least_ttl (records (kept self.now)) }
    {
        let least = self.least_with(None, self.message.answers.items());
        let least = self.least_with(least, self.message.authorities.items());
        let least = self.least_with(least, self.message.additionals.items());
        least.unwrap_or(0)
    }
}

fn any_asked(rs: &[Record], labels: &[Label], record_type: u16) -> bool
    ensures { result ≡ list_any (λ r. r.record_type.code == record_type && same_names r.name (apex labels.now)) rs.now }
{
    rs.iter().any(|r| r.record_type.code == record_type && is_apex(&r.name, labels))
}

fn any_foreign(rs: &[Record], class: u16) -> bool
    ensures { result ≡ list_any (λ r. not (r.dns_class.code == class)) rs.now }
{
    rs.iter().any(|r| r.dns_class.code != class)
}

/// Whether the code is NoError or NXDomain.
fn has_data_code(m: &Message) -> bool
    ensures { result ≡ (m.now.response_code.code == 0 || m.now.response_code.code == 3) }
{
    m.response_code.code == 0 || m.response_code.code == 3
}

fn has_no_data(m: &Message, labels: &[Label], record_type: u16, class: u16) -> bool
    ensures { result ≡ has_no_data_for (asks labels.now record_type class) m.now }
{
    let _class = class;
    m.answers.items().is_empty()
        & !any_asked(m.authorities.items(), labels, record_type)
        & !any_asked(m.additionals.items(), labels, record_type)
}

fn has_foreign(m: &Message, class: u16) -> bool
    ensures { result ≡ (list_any (λ r. not (r.dns_class.code == class)) m.now.answers || list_any (λ r. not (r.dns_class.code == class)) m.now.authorities || list_any (λ r. not (r.dns_class.code == class)) m.now.additionals) }
{
    any_of(
        any_foreign(m.answers.items(), class),
        any_foreign(m.authorities.items(), class),
        any_foreign(m.additionals.items(), class),
    )
}

/// Whether a message is an answer to the question for a fully qualified name, a type and a class.
pub(crate) fn is_answer(m: &Message, labels: &[Label], record_type: u16, class: u16) -> bool
    ensures { result ≡ is_answer (asks labels.now record_type class) m.now }
{
    let bare = has_no_data(m, labels, record_type, class);
    let foreign = has_foreign(m, class);
    has_data_code(m) & (!m.truncation & is_neither(bare, foreign))
}

/// The labels behind a cut.
pub fn behind(labels: &[Label], cut: usize) -> &[Label]
    requires { cut ≤ length labels.now }
    ensures { result.now ≡ drop cut labels.now }
{
    &labels[cut..]
}
