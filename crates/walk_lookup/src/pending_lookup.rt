//! What is sought by a lookup that is under way, its open order, and which outcomes are that order's.
ghost use Rattle.std.specs.Prelude.{◌≡◌, ◌↔◌, ◌≤◌, IsTrue, option_copied};
ghost use Rattle.walk_lookup.specs.PendingLookup.{IsSentOver, IsFirst, IsOf, MayWait, MayTake, MayTakeBy};

use crate::lookup_result::LookupResult;
use crate::order_targets::{is_denial, is_identical, is_still};
use dns_core::{Boxed, Name, Query};
use server_core::{Outcome, SentBy, same_address};
use std::net::IpAddr;

/// What an order does: it opens a connection to an address, asks there, or sleeps.
#[derive(Clone, Copy, Debug, PartialEq, Eq)]
pub enum OrderTarget {
    Open { ip: IpAddr },
    Ask { ip: IpAddr },
    Sleep,
}

/// An order that is open: its number, what it does, the greatest number of a log entry that was put
/// before it was given, and the entry that sent what its polls wait for, once one of them was put.
#[derive(Clone, Copy, Debug, PartialEq, Eq)]
pub struct OpenOrder {
    pub number: u64,
    pub aim: OrderTarget,
    pub since: u64,
    pub polled: Option<u64>,
}

/// What a lookup is for: a question at the servers of a zone, since a moment. `given` is its open order,
/// `first` the address to which its first send goes, where that is known, `at` the moment of the last
/// end of a send, and `came` what it came to, where that is known.
#[derive(Drop)]
pub struct PendingLookup {
    pub query: Query,
    pub zone: Name,
    pub start: u64,
    pub given: Option<OpenOrder>,
    pub first: Option<IpAddr>,
    pub at: u64,
    pub came: Option<Boxed<LookupResult>>,
}

impl PendingLookup {
    /// Whether this was sent for its open order: to the address, and where it asks with the question
    /// and later than what was put before.
    fn sends(&self, asks: bool, ip: IpAddr, since: u64, sent: &SentBy) -> bool
        ensures { IsTrue result ↔ IsSentOver asks ip self.now.query since sent.now }
    {
        if !same_address(sent.ip, ip) {
            return false;
        }
        match &sent.query {
            None => !asks,
            Some(query) => asks && since < sent.of && is_identical(query, &self.query),
        }
    }

    /// Whether the first send began with this, at the start of the lookup, or is known to go there.
    fn begins(&self, ended: bool, sent: &SentBy) -> bool
        ensures { IsTrue result ↔ IsFirst self.now.start self.now.first ended sent.now }
    {
        match &self.first {
            None => sent.moment == self.start,
            Some(ip) => ended || same_address(sent.ip, *ip),
        }
    }

    fn is_of(&self, ended: bool, asks: bool, ip: IpAddr, since: u64, sent: &SentBy) -> bool
        ensures { IsTrue result ↔ IsOf self.now.start self.now.query self.now.first ended since asks ip sent.now }
    {
        self.sends(asks, ip, since, sent) && self.begins(ended, sent)
    }

    /// Whether a poll that found nothing is one of its order to open or to ask: it waits for what was
    /// sent for that order, as those before it did.
    fn is_polled(
        &self,
        ended: bool,
        asks: bool,
        ip: IpAddr,
        given: &OpenOrder,
        of: u64,
        waits: Option<&SentBy>,
    ) -> bool
        ensures { IsTrue result ↔ MayWait self.now.start self.now.query self.now.first ended given.now.since given.now.polled asks ip (option_copied waits.entry) of }
    {
        match waits {
            Some(sent) => {
                sent.of == of
                    && is_still(given.polled, of)
                    && self.is_of(ended, asks, ip, given.since, sent)
            }
            None => false,
        }
    }

    /// Whether this is an outcome of its order to open or to ask: a denial only where it was asked for.
    fn fits(
        &self,
        ended: bool,
        asks: bool,
        ip: IpAddr,
        given: &OpenOrder,
        outcome: &Outcome,
        waits: Option<&SentBy>,
    ) -> bool
        ensures { IsTrue result ↔ MayTake self.now.start self.now.query self.now.first ended given.now.since given.now.polled asks ip (option_copied waits.entry) outcome.now }
    {
        match outcome {
            Outcome::Pending { of, .. } => self.is_polled(ended, asks, ip, given, *of, waits),
            Outcome::Connected { sent, .. } => {
                !asks && self.is_of(ended, asks, ip, given.since, sent)
            }
            Outcome::Told { sent, .. } => asks && self.is_of(ended, asks, ip, given.since, sent),
            Outcome::Failed {
                sent,
                refused,
                error,
                ..
            } => {
                (!is_denial(error) || asks && !*refused)
                    && self.is_of(ended, asks, ip, given.since, sent)
            }
            Outcome::Slept => false,
        }
    }

    /// Whether this is an outcome of an order that it gave; a sleep may end by any.
    pub fn may_take(
        &self,
        ended: bool,
        given: &OpenOrder,
        outcome: &Outcome,
        waits: Option<&SentBy>,
    ) -> bool
        ensures { IsTrue result ↔ MayTakeBy self.now ended given.now given.now.aim (option_copied waits.entry) outcome.now }
    {
        match &given.aim {
            OrderTarget::Open { ip } => {
                outcome.entry() != 0 && self.fits(ended, false, *ip, given, outcome, waits)
            }
            OrderTarget::Ask { ip } => {
                outcome.entry() != 0 && self.fits(ended, true, *ip, given, outcome, waits)
            }
            OrderTarget::Sleep => true,
        }
    }

    /// Whether it is for this question at the servers of this zone, since no earlier than the moment.
    pub fn is_for(&self, query: &Query, zone: &Name, begun: u64) -> bool
        ensures { IsTrue result ↔ ((self.now.query ≡ query.now) × (self.now.zone ≡ zone.now) × (begun ≤ self.now.start)) }
    {
        begun <= self.start && is_identical(&self.query, query) && self.zone.eq_case(zone)
    }
}
