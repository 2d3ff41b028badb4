//! Servers, sends to them step by step, and what is kept of their outcomes.

use crate::outcome_samples::What;
use crate::send_samples::{Call, goes};
use crate::server_samples::Reached;
use crate::sights::{End, Kept, Seen};
use dns_core::Protocol;
use server_core::{After, Status};
use std::alloc::Global;
use std::test::Fail;

const UDP: Protocol = Protocol::Udp;

const TCP: Protocol = Protocol::Tcp;

/// Over UDP and TCP, without a connection.
const UNOPENED: Reached = Reached::Opened(&[]);

/// With one of UDP.
const BY_UDP: Reached = Reached::Opened(&[(UDP, 3)]);

/// With two of UDP.
const BY_UDP_TWICE: Reached = Reached::Opened(&[(UDP, 3), (UDP, 4)]);

/// With one of TCP, and one of UDP.
const BY_TCP_AND_UDP: Reached = Reached::Opened(&[(TCP, 3), (UDP, 4)]);

const MIXED: &[(Protocol, u64)] = &[(TCP, 1), (UDP, 2), (UDP, 4)];

/// Where UDP may be used, and where it may not.
const WITH_UDP: Call = Call::Choose { disable_udp: false };

const WITHOUT_UDP: Call = Call::Choose { disable_udp: true };

/// Servers, and what is seen of each. UDP comes first, but where the order is the user's, and a connection
/// and a way of UDP are chosen where that is allowed.
static SEEN: [(Reached, Call, Seen); 9] = [
    (
        Reached::Opened(MIXED),
        Call::Connections,
        Seen::Connections([1, 2, 4]),
    ),
    (
        Reached::InTurn(MIXED),
        Call::Connections,
        Seen::Connections([2, 4, 1]),
    ),
    (
        Reached::Known,
        Call::Connections,
        Seen::Connections([3, 0, 0]),
    ),
    (
        UNOPENED,
        Call::Protocols,
        Seen::Protocols(Some(UDP), Some(TCP), None),
    ),
    (
        Reached::ByUdp,
        Call::Protocols,
        Seen::Protocols(Some(UDP), None, None),
    ),
    (BY_TCP_AND_UDP, WITH_UDP, Seen::Chosen(Some(1), Some(0))),
    (BY_TCP_AND_UDP, WITHOUT_UDP, Seen::Chosen(Some(0), Some(1))),
    (BY_UDP, WITHOUT_UDP, Seen::Chosen(None, Some(1))),
    (Reached::ByUdp, WITHOUT_UDP, Seen::Chosen(None, None)),
];

#[test]
fn servers_have_connections_and_ways_and_udp_is_chosen_first(rt: HostRuntime) -> Result<(), Fail> {
    for (reached, call, wanted) in &SEEN {
        goes(rt.alloc(), *reached, false, &[(0, *call, *wanted)])?;
    }
    Ok(())
}

const OPENS: Seen = Seen::Opens(0, UDP);

const ENDED: Seen = Seen::Has(After::Ended);

const KEPT: Seen = Seen::Has(After::Kept);

/// The connection of a send is used again by the next.
static USED_AGAIN: [(u64, Call, Seen); 6] = [
    (7, Call::Next, OPENS),
    (8, Call::Put(What::Connected), ENDED),
    (9, Call::Next, Seen::Asks(7, UDP)),
    (10, Call::Put(What::Code(5)), ENDED),
    (11, Call::Again { disable_udp: false }, Seen::Nothing),
    (11, Call::Next, Seen::Asks(7, UDP)),
];

/// UDP comes before TCP, unless it is off, where a connection is opened and where it is used again.
static UDP_FIRST: [(u64, Call, Seen); 3] = [
    (7, Call::Next, OPENS),
    (8, Call::Again { disable_udp: true }, Seen::Nothing),
    (8, Call::Next, Seen::Opens(0, TCP)),
];

static UDP_ASKED_FIRST: [(u64, Call, Seen); 3] = [
    (7, Call::Next, Seen::Asks(4, UDP)),
    (8, Call::Again { disable_udp: true }, Seen::Nothing),
    (8, Call::Next, Seen::Asks(3, TCP)),
];

static NONE_ALLOWED: [(u64, Call, Seen); 1] = [(7, Call::Next, Seen::Ends(End::NoConnections))];

#[test]
fn a_connection_is_chosen_where_its_protocol_is_allowed(rt: HostRuntime) -> Result<(), Fail> {
    let alloc = rt.alloc();
    goes(alloc, UNOPENED, false, &USED_AGAIN)?;
    goes(alloc, Reached::ByTcpFirst, false, &UDP_FIRST)?;
    goes(alloc, BY_TCP_AND_UDP, false, &UDP_ASKED_FIRST)?;
    goes(alloc, Reached::ByUdp, true, &NONE_ALLOWED)
}

/// One that was used again is tried once more.
static CLOSED_TWICE: [(u64, Call, Seen); 5] = [
    (7, Call::Next, Seen::Asks(3, UDP)),
    (8, Call::Put(What::Closed), ENDED),
    (9, Call::Next, Seen::Asks(4, UDP)),
    (10, Call::Put(What::Closed), ENDED),
    (11, Call::Next, Seen::Ends(End::Closed)),
];

/// A new one is opened where no other is kept, as where a server closes it between two questions.
static OPENED_ANEW: [(u64, Call, Seen); 7] = [
    (7, Call::Next, Seen::Asks(3, UDP)),
    (8, Call::Put(What::Closed), ENDED),
    (9, Call::Next, OPENS),
    (10, Call::Put(What::Connected), ENDED),
    (11, Call::Next, Seen::Asks(9, UDP)),
    (12, Call::Put(What::CutEmpty), ENDED),
    (13, Call::Next, Seen::Answers),
];

/// One that was just opened is not tried again.
static CLOSED_AT_ONCE: [(u64, Call, Seen); 5] = [
    (7, Call::Next, OPENS),
    (8, Call::Put(What::Connected), ENDED),
    (9, Call::Next, Seen::Asks(7, UDP)),
    (10, Call::Put(What::Closed), ENDED),
    (11, Call::Next, Seen::Ends(End::Closed)),
];

#[test]
fn a_closed_connection_is_tried_again_once(rt: HostRuntime) -> Result<(), Fail> {
    let alloc = rt.alloc();
    goes(alloc, BY_UDP_TWICE, false, &CLOSED_TWICE)?;
    goes(alloc, BY_UDP, false, &OPENED_ANEW)?;
    goes(alloc, UNOPENED, false, &CLOSED_AT_ONCE)
}

/// A failed opening ends the send and changes no delay.
static REFUSED: [(u64, Call, Seen); 6] = [
    (7, Call::Next, OPENS),
    (8, Call::Put(What::Refused), ENDED),
    (8, Call::Delay, Seen::Delay(10)),
    (9, Call::Next, Seen::Ends(End::Refused)),
    (10, Call::Next, Seen::Waits),
    (11, Call::Put(What::Closed), Seen::Has(After::Late)),
];

/// An order is given up at the last poll that patience allows. The polls of the question count anew
/// after those of the opening.
static GIVEN_UP: [(u64, Call, Seen); 10] = [
    (7, Call::Next, OPENS),
    (8, Call::Put(What::Pending), KEPT),
    (9, Call::Put(What::Pending), KEPT),
    (10, Call::Put(What::Connected), ENDED),
    (11, Call::Next, Seen::Asks(7, UDP)),
    (12, Call::Put(What::Pending), KEPT),
    (13, Call::Put(What::Pending), KEPT),
    (14, Call::Next, Seen::Waits),
    (15, Call::Put(What::Pending), Seen::Has(After::GiveUp)),
    (16, Call::Next, Seen::Ends(End::Timeout)),
];

/// A sleep is no order of a send.
static SLEPT_OPENING: [(u64, Call, Seen); 3] = [
    (7, Call::Next, OPENS),
    (8, Call::Put(What::Slept), ENDED),
    (9, Call::Next, Seen::Ends(End::Other)),
];

static SLEPT_ASKING: [(u64, Call, Seen); 3] = [
    (7, Call::Next, Seen::Asks(3, UDP)),
    (8, Call::Put(What::Slept), ENDED),
    (9, Call::Next, Seen::Ends(End::Other)),
];

#[test]
fn other_outcomes_end_a_send(rt: HostRuntime) -> Result<(), Fail> {
    let alloc = rt.alloc();
    goes(alloc, UNOPENED, false, &REFUSED)?;
    goes(alloc, UNOPENED, false, &GIVEN_UP)?;
    goes(alloc, UNOPENED, false, &SLEPT_OPENING)?;
    goes(alloc, BY_UDP, false, &SLEPT_ASKING)
}

/// An end is taken once.
static TAKEN: [(u64, Call, Seen); 6] = [
    (1, Call::TakeEnd, Seen::IsUndecided),
    (7, Call::Next, OPENS),
    (7, Call::TakeEnd, Seen::IsUndecided),
    (8, Call::Put(What::Timeout), ENDED),
    (8, Call::TakeEnd, Seen::Ends(End::Timeout)),
    (8, Call::TakeEnd, Seen::IsUndecided),
];

/// A connection that failed stays until the next choice.
static STAYS: [(u64, Call, Seen); 15] = [
    (1, Call::Next, OPENS),
    (2, Call::Turn, Seen::Nothing),
    (2, Call::Next, OPENS),
    (3, Call::Turn, Seen::Nothing),
    (3, Call::Put(What::Connected), ENDED),
    (3, Call::Next, Seen::Asks(1, UDP)),
    (3, Call::Put(What::Timeout), ENDED),
    (4, Call::Turn, Seen::Nothing),
    (4, Call::Put(What::Connected), ENDED),
    (4, Call::Next, Seen::Asks(2, UDP)),
    (4, Call::Connections, Seen::Connections([1, 2, 0])),
    (5, Call::Turn, Seen::Nothing),
    (5, Call::Again { disable_udp: false }, Seen::Nothing),
    (5, Call::Next, Seen::Asks(2, UDP)),
    (5, Call::Connections, Seen::Connections([2, 0, 0])),
];

#[test]
fn ends_are_taken_once_and_failed_connections_stay(rt: HostRuntime) -> Result<(), Fail> {
    let alloc = rt.alloc();
    goes(alloc, UNOPENED, false, &TAKEN)?;
    goes(alloc, UNOPENED, false, &STAYS)
}

/// What an answer leaves: the delay of the connection is 2,000 (1 - 1 / e) + 1,000 / e, rounded.
const ANSWERED: Kept = Kept {
    connection: 1_632,
    status: Status::Established,
    server: 1_988,
};

/// What counts as a failure leaves 150,000 microseconds more; the server has none of before.
const FAILURE: Kept = Kept {
    connection: 151_000,
    status: Status::Failed,
    server: 149_168,
};

/// What counts not at all.
const UNCHANGED: Kept = Kept {
    connection: 1_000,
    status: Status::Failed,
    server: 10,
};

/// A failure over a connection that stands.
const STANDING_FAILURE: Kept = Kept {
    connection: 151_000,
    status: Status::Established,
    server: 149_168,
};

/// What counts not at all, over a connection that stands.
const STANDING: Kept = Kept {
    connection: 1_000,
    status: Status::Established,
    server: 10,
};

/// Outcomes, and what each leaves.
static LEFT: [(What, Kept); 9] = [
    (What::Answer, ANSWERED),
    (What::CutEmpty, ANSWERED),
    (What::Empty, STANDING_FAILURE),
    (What::Code(3), STANDING_FAILURE),
    (What::Code(5), STANDING),
    (What::Busy, FAILURE),
    (What::Closed, FAILURE),
    (What::Timeout, FAILURE),
    (What::Mismatch, UNCHANGED),
];

/// This is kept after an outcome of a question that was asked 2,000 microseconds before, three seconds
/// after the delay of its connection was recorded.
fn keeps(alloc: Global, what: What, wanted: Kept) -> Result<(), Fail> {
    let steps = [
        (3_000_000, Call::Next, Seen::Asks(3, UDP)),
        (3_002_000, Call::Put(what), ENDED),
        (3_002_000, Call::Kept, Seen::Keeps(wanted)),
    ];
    goes(alloc, Reached::Known, false, &steps)
}

/// After the last poll of a question that patience allows.
static KEPT_GIVEN_UP: [(u64, Call, Seen); 5] = [
    (3_000_000, Call::Next, Seen::Asks(3, UDP)),
    (3_001_000, Call::Put(What::Pending), KEPT),
    (3_002_000, Call::Put(What::Pending), KEPT),
    (
        3_002_000,
        Call::Put(What::Pending),
        Seen::Has(After::GiveUp),
    ),
    (3_002_000, Call::Kept, Seen::Keeps(FAILURE)),
];

#[test]
fn an_outcome_counts_by_its_time_as_a_failure_or_not_at_all(rt: HostRuntime) -> Result<(), Fail> {
    let alloc = rt.alloc();
    for (what, wanted) in &LEFT {
        keeps(alloc, *what, *wanted)?;
    }
    goes(alloc, Reached::Known, false, &KEPT_GIVEN_UP)
}
