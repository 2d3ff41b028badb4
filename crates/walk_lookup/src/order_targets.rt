//! What an order does, and what an outcome says of the order and of its lookup.
ghost use Rattle.std.specs.Prelude.{◌≡◌, ◌↔◌, IsTrue, option_copied};
ghost use Rattle.pool_lookup.specs.Holds.{out_of_memory};
ghost use Rattle.walk_lookup.specs.PendingLookup.{IsStill, is_denial, aim_of, sent_to, first_of, polled_by};

use crate::pending_lookup::{OpenOrder, OrderTarget};
use dns_core::{DnsError, Message, NetError, Query};
use server_core::{Order, Outcome, SentBy};
use std::net::IpAddr;

/// Whether an error is a denial in place of a message.
pub(crate) fn is_denial(error: &NetError) -> bool
    ensures { result ≡ is_denial error.now }
{
    matches!(error, NetError::Dns(DnsError::NoRecordsFound(_)))
}

/// Whether what a lookup was answered is that memory ran out for it.
pub fn is_memory(told: &Result<Message, NetError>) -> bool
    ensures { result ≡ out_of_memory told.now }
{
    match told {
        Ok(_) => false,
        Err(error) => error.is_memory(),
    }
}

/// Whether two questions are equal, also in the case of their names.
pub(crate) fn is_identical(left: &Query, right: &Query) -> bool
    ensures { IsTrue result ↔ (left.now ≡ right.now) }
{
    left.query_type == right.query_type
        && left.query_class == right.query_class
        && left.name.eq_case(&right.name)
}

/// What an order does.
pub fn aim_of(order: &Order) -> OrderTarget
    ensures { result ≡ aim_of order.now }
{
    match order {
        Order::Open { ip, .. } => OrderTarget::Open { ip: *ip },
        Order::Ask { ip, .. } => OrderTarget::Ask { ip: *ip },
        Order::Sleep { .. } => OrderTarget::Sleep,
    }
}

/// To which address what came of an order was sent, or what it waits for, where that is known.
pub(crate) fn sent_to(outcome: &Outcome, waits: Option<&SentBy>) -> Option<IpAddr>
    ensures { result ≡ sent_to (option_copied waits.entry) outcome.now }
{
    match outcome {
        Outcome::Connected { sent, .. } => Some(sent.ip),
        Outcome::Told { sent, .. } => Some(sent.ip),
        Outcome::Failed { sent, .. } => Some(sent.ip),
        Outcome::Pending { .. } => match waits {
            Some(sent) => Some(sent.ip),
            None => None,
        },
        Outcome::Slept => None,
    }
}

/// To which address the first send of a lookup goes, where an outcome of its open order says so.
pub fn first_of(given: &OpenOrder, outcome: &Outcome, waits: Option<&SentBy>) -> Option<IpAddr>
    ensures { result ≡ first_of given.now.aim (option_copied waits.entry) outcome.now }
{
    match given.aim {
        OrderTarget::Sleep => None,
        OrderTarget::Open { .. } | OrderTarget::Ask { .. } => sent_to(outcome, waits),
    }
}

/// The entry that sent what a poll waits for, if the outcome is one that found nothing.
pub fn polled_by(outcome: &Outcome) -> Option<u64>
    ensures { result ≡ polled_by outcome.now }
{
    match outcome {
        Outcome::Pending { of, .. } => Some(*of),
        Outcome::Connected { .. }
        | Outcome::Told { .. }
        | Outcome::Failed { .. }
        | Outcome::Slept => None,
    }
}

/// Whether what a poll waits for is what the polls before it waited for.
pub(crate) fn is_still(polled: Option<u64>, of: u64) -> bool
    ensures { IsTrue result ↔ IsStill polled of }
{
    match polled {
        None => true,
        Some(before) => before == of,
    }
}
