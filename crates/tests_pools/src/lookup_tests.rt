//! Lookups at pools, step by step.

use crate::outcome_samples::What;
use crate::pool_samples::{Call, Course};
use crate::sights::{End, Seen};
use dns_core::Protocol;
use server_core::After;
use std::test::Fail;
use tests_samples::runs;

const ENDED: Seen = Seen::Has(After::Ended);

/// A busy server is asked again after a sleep.
static BUSY: [(u64, Call, Seen); 14] = [
    (0, Call::Configure, Seen::Pool(0, 1)),
    (0, Call::Lookup(0), Seen::Lookup(0)),
    (5, Call::Next(0), Seen::Opens(1, Protocol::Udp)),
    (5, Call::Put(1, What::Connected), ENDED),
    (6, Call::Next(0), Seen::Asks(2, Protocol::Udp)),
    (6, Call::Put(2, What::Busy), ENDED),
    (6, Call::Next(0), Seen::Sleeps(3, 20_006)),
    (20_006, Call::Put(3, What::Slept), ENDED),
    (20_007, Call::Next(0), Seen::Opens(4, Protocol::Udp)),
    (20_007, Call::Put(4, What::Connected), ENDED),
    (20_008, Call::Next(0), Seen::Asks(5, Protocol::Udp)),
    (20_008, Call::Put(5, What::Answer), ENDED),
    (20_009, Call::Next(0), Seen::Answers),
    (20_009, Call::Ends(0), Seen::Numbers(2, Some(20), Some(50))),
];

/// After a cut message the server is asked over TCP.
static CUT: [(u64, Call, Seen); 11] = [
    (0, Call::Configure, Seen::Pool(0, 1)),
    (0, Call::Lookup(0), Seen::Lookup(0)),
    (5, Call::Next(0), Seen::Opens(1, Protocol::Udp)),
    (5, Call::Put(1, What::Connected), ENDED),
    (6, Call::Next(0), Seen::Asks(2, Protocol::Udp)),
    (6, Call::Put(2, What::Cut), ENDED),
    (7, Call::Next(0), Seen::Opens(3, Protocol::Tcp)),
    (7, Call::Put(3, What::Connected), ENDED),
    (8, Call::Next(0), Seen::Asks(4, Protocol::Tcp)),
    (8, Call::Put(4, What::Answer), ENDED),
    (9, Call::Next(0), Seen::Answers),
];

/// A lookup answers from its end on.
static ANSWERED: [(u64, Call, Seen); 9] = [
    (0, Call::Configure, Seen::Pool(0, 1)),
    (0, Call::Lookup(0), Seen::Lookup(0)),
    (5, Call::Next(0), Seen::Opens(1, Protocol::Udp)),
    (5, Call::Put(1, What::Connected), ENDED),
    (5, Call::Answer(0), Seen::IsUndecided),
    (6, Call::Next(0), Seen::Asks(2, Protocol::Udp)),
    (6, Call::Put(2, What::Answer), ENDED),
    (7, Call::Next(0), Seen::Answers),
    (7, Call::Answer(0), Seen::Answers),
];

/// An order ends at the last poll that patience allows, by the entry after that of the poll.
static GIVEN_UP: [(u64, Call, Seen); 10] = [
    (0, Call::Configure, Seen::Pool(0, 1)),
    (0, Call::Lookup(0), Seen::Lookup(0)),
    (5, Call::Next(0), Seen::Opens(1, Protocol::Udp)),
    (6, Call::Put(1, What::Pending), Seen::Has(After::Kept)),
    (7, Call::Put(1, What::Pending), Seen::Has(After::Kept)),
    (8, Call::Open(0), Seen::Numbers(1, Some(1), None)),
    (8, Call::Put(1, What::Pending), Seen::Has(After::GiveUp)),
    (8, Call::Put(1, What::Pending), Seen::Has(After::Late)),
    (9, Call::Next(0), Seen::Ends(End::Timeout)),
    (9, Call::Ends(0), Seen::Numbers(1, Some(11), None)),
];

#[test]
fn a_lookup_goes_from_order_to_order_to_its_answer(rt: HostRuntime) -> Result<(), Fail> {
    let alloc = rt.alloc();
    runs(alloc, Course::new(alloc), &BUSY)?;
    runs(alloc, Course::new(alloc), &CUT)?;
    runs(alloc, Course::new(alloc), &ANSWERED)?;
    runs(alloc, Course::new(alloc), &GIVEN_UP)
}

/// A lookup names the servers of its pool in their order. Its open orders are those that were given
/// and have not ended.
static OPEN: [(u64, Call, Seen); 10] = [
    (0, Call::Add, Seen::Server(1)),
    (0, Call::Add, Seen::Server(2)),
    (0, Call::Group(&[2, 1]), Seen::Pool(0, 2)),
    (0, Call::Send(0, "a.", false), Seen::Lookup(0)),
    (5, Call::Servers(0), Seen::Numbers(2, Some(2), Some(1))),
    (5, Call::Next(0), Seen::Opens(1, Protocol::Udp)),
    (5, Call::Next(0), Seen::Opens(2, Protocol::Udp)),
    (5, Call::Open(0), Seen::Numbers(2, Some(1), Some(2))),
    (6, Call::Put(1, What::Connected), ENDED),
    (6, Call::Open(0), Seen::Numbers(1, Some(2), None)),
];

/// Elsewhere it has no servers and no orders.
static ELSEWHERE: [(u64, Call, Seen); 9] = [
    (0, Call::Add, Seen::Server(1)),
    (0, Call::Add, Seen::Server(2)),
    (0, Call::Group(&[2, 1]), Seen::Pool(0, 2)),
    (0, Call::Send(0, "a.", false), Seen::Lookup(0)),
    (5, Call::Next(0), Seen::Opens(1, Protocol::Udp)),
    (5, Call::Replace, Seen::Nothing),
    (5, Call::Servers(0), Seen::Numbers(0, None, None)),
    (5, Call::Open(0), Seen::Numbers(0, None, None)),
    (5, Call::Answer(0), Seen::IsUndecided),
];

/// Its open order is withdrawn once it was left.
static LEFT: [(u64, Call, Seen); 7] = [
    (0, Call::Configure, Seen::Pool(0, 1)),
    (0, Call::Lookup(0), Seen::Lookup(0)),
    (5, Call::Next(0), Seen::Opens(1, Protocol::Udp)),
    (5, Call::Withdraw, Seen::Withdrawn(None)),
    (5, Call::Leave, Seen::Nothing),
    (5, Call::Withdraw, Seen::Withdrawn(Some(1))),
    (5, Call::Withdraw, Seen::Withdrawn(None)),
];

#[test]
fn a_lookup_has_servers_and_open_orders_where_it_began(rt: HostRuntime) -> Result<(), Fail> {
    let alloc = rt.alloc();
    runs(alloc, Course::new(alloc), &OPEN)?;
    runs(alloc, Course::new(alloc), &ELSEWHERE)?;
    runs(alloc, Course::new(alloc), &LEFT)
}
