//! Lookups that several requests share, at two pools of one server.

use crate::outcome_samples::What;
use crate::pool_samples::{Call, Course};
use crate::sights::Seen;
use dns_core::Protocol;
use server_core::After;
use std::test::Fail;
use tests_samples::runs;

/// Six requests, of which the second is in another case, the third wants DNSSEC records, the fourth is
/// for another name, the fifth at another pool, and the last like the first. Each is seen by the place of
/// the first that has its lookup.
static KEYS: [(u64, Call, Seen); 8] = [
    (5, Call::Configure, Seen::Pool(0, 1)),
    (5, Call::Group(&[1]), Seen::Pool(1, 1)),
    (5, Call::Send(0, "a.", false), Seen::Lookup(0)),
    (5, Call::Send(0, "A.", false), Seen::Lookup(0)),
    (5, Call::Send(0, "a.", true), Seen::Lookup(2)),
    (5, Call::Send(0, "b.", false), Seen::Lookup(3)),
    (5, Call::Send(1, "a.", false), Seen::Lookup(4)),
    (5, Call::Send(0, "a.", false), Seen::Lookup(0)),
];

#[test]
fn requests_of_one_key_at_one_pool_share_a_lookup(rt: HostRuntime) -> Result<(), Fail> {
    let alloc = rt.alloc();
    runs(alloc, Course::new(alloc), &KEYS)
}

/// Two requests share a lookup to its answer, and one that comes later begins another.
static ANSWERED: [(u64, Call, Seen); 12] = [
    (5, Call::Configure, Seen::Pool(0, 1)),
    (5, Call::Group(&[1]), Seen::Pool(1, 1)),
    (5, Call::Send(0, "a.", false), Seen::Lookup(0)),
    (5, Call::Send(0, "a.", false), Seen::Lookup(0)),
    (5, Call::Next(0), Seen::Opens(1, Protocol::Udp)),
    (5, Call::Next(1), Seen::Waits),
    (5, Call::Put(1, What::Connected), Seen::Has(After::Ended)),
    (5, Call::Next(1), Seen::Asks(2, Protocol::Udp)),
    (5, Call::Put(2, What::Answer), Seen::Has(After::Ended)),
    (5, Call::Answer(0), Seen::Answers),
    (5, Call::Answer(1), Seen::Answers),
    (5, Call::Send(0, "a.", false), Seen::Lookup(2)),
];

#[test]
fn an_answer_is_told_to_all_that_wait_for_it(rt: HostRuntime) -> Result<(), Fail> {
    let alloc = rt.alloc();
    runs(alloc, Course::new(alloc), &ANSWERED)
}

/// No order is withdrawn after one of two left, and that which is open after the other did.
static LEFT: [(u64, Call, Seen); 10] = [
    (5, Call::Configure, Seen::Pool(0, 1)),
    (5, Call::Group(&[1]), Seen::Pool(1, 1)),
    (5, Call::Send(0, "a.", false), Seen::Lookup(0)),
    (5, Call::Send(0, "a.", false), Seen::Lookup(0)),
    (5, Call::Next(0), Seen::Opens(1, Protocol::Udp)),
    (5, Call::Leave, Seen::Nothing),
    (5, Call::Withdraw, Seen::Withdrawn(None)),
    (5, Call::Leave, Seen::Nothing),
    (5, Call::Withdraw, Seen::Withdrawn(Some(1))),
    (5, Call::Withdraw, Seen::Withdrawn(None)),
];

#[test]
fn the_last_that_leaves_withdraws_the_orders(rt: HostRuntime) -> Result<(), Fail> {
    let alloc = rt.alloc();
    runs(alloc, Course::new(alloc), &LEFT)
}
