//! Logs of the worked example and of other walks, told to the plain programs: which addresses serve a
//! zone, and which entries answer a question.

use dns_core::{
    DnsClass, Log, LogEntry, Message, Name, NameError, NoMemory, Protocol, Query, RecordType,
    ToldOutcome,
};
use recursor_types::{Policy, RecursorOptions};
use resolution_reference::{Setting, base, serves};
use resolver_settings::{IpNet, Nets, TtlBounds, TtlConfig};
use std::alloc::Global;
use std::net::{IpAddr, Ipv4Addr};
use std::test::Fail;
use tests_samples::{answer, both, domain, is_wanted, put, query, query_of, referral, v4};

/// The address that stands beside a referral, of a server that is in no zone of it.
const STRANGER: [u8; 4] = [66, 6, 6, 6];

/// The address of `example.com.`.
const ANSWER: [u8; 4] = [93, 184, 215, 14];

fn ip_of(octets: [u8; 4]) -> Ipv4Addr {
    let [a, b, c, d] = octets;
    Ipv4Addr::new(a, b, c, d)
}

fn opened(server: Ipv4Addr) -> LogEntry {
    LogEntry::Opened {
        ip: IpAddr::V4(server),
        protocol: Protocol::Udp,
        moment: 0,
        refused: None,
    }
}

/// What was ordered by the entry of this number is told.
fn told(of: u64, outcome: ToldOutcome) -> LogEntry {
    LogEntry::Told {
        of,
        moment: 0,
        outcome,
    }
}

fn asked(server: Ipv4Addr, query: Result<Query, NameError>) -> Result<LogEntry, NameError> {
    Ok(LogEntry::Asked {
        ip: IpAddr::V4(server),
        protocol: Protocol::Udp,
        query: query?,
        moment: 0,
        refused: None,
    })
}

fn replied(of: u64, message: Result<Message, NameError>) -> Result<LogEntry, NameError> {
    Ok(told(of, ToldOutcome::Message(message?)))
}

/// A server is opened; the first entry gets the number `n`.
fn put_opened(log: &mut Log, n: u64, server: Ipv4Addr) -> Result<(), NameError> {
    put(log, Ok(opened(server)))?;
    put(log, Ok(told(n, ToldOutcome::Connected)))
}

/// A server is asked for the NS records of a zone, and refers it to a server with an address; the first
/// entry gets the number `n`.
fn put_referral(
    alloc: Global,
    log: &mut Log,
    n: u64,
    at: Ipv4Addr,
    zone: &str,
    server: &str,
    ip: Ipv4Addr,
) -> Result<(), NameError> {
    put_opened(log, n, at)?;
    put(
        log,
        asked(at, query_of(alloc, zone, RecordType::NS, DnsClass::IN)),
    )?;
    put(
        log,
        replied(n.saturating_add(2), referral(alloc, zone, server, ip)),
    )
}

/// A server is asked for the address of a name, and answers; the first entry gets the number 9.
fn put_answer(
    alloc: Global,
    log: &mut Log,
    at: Ipv4Addr,
    owner: &str,
    ip: Ipv4Addr,
) -> Result<(), NameError> {
    put_opened(log, 9, at)?;
    put(log, asked(at, query(alloc, owner)))?;
    put(log, replied(11, answer(alloc, owner, 300, ip)))
}

/// Which log is told: that of the worked example, one whose second referral names a server of another
/// zone, with an address beside it, and the same with the address that the root then answers for it.
#[derive(Clone, Copy)]
enum Walk {
    Worked,
    Stray,
    Chased,
}

fn put_referrals(
    alloc: Global,
    log: &mut Log,
    server: &str,
    ip: Ipv4Addr,
) -> Result<(), NameError> {
    put_referral(alloc, log, 1, v4(1), "com.", "a.nic.com.", v4(2))?;
    put_referral(alloc, log, 5, v4(2), "example.com.", server, ip)
}

fn put_walk(alloc: Global, log: &mut Log, walk: Walk) -> Result<(), NameError> {
    match walk {
        Walk::Worked => {
            put_referrals(alloc, log, "ns.example.com.", v4(3))?;
            put_answer(alloc, log, v4(3), "example.com.", ip_of(ANSWER))
        }
        Walk::Stray => put_referrals(alloc, log, "ns.elsewhere.net.", ip_of(STRANGER)),
        Walk::Chased => {
            put_referrals(alloc, log, "ns.elsewhere.net.", ip_of(STRANGER))?;
            put_answer(alloc, log, v4(1), "ns.elsewhere.net.", v4(9))
        }
    }
}

fn log_of(alloc: Global, walk: Walk) -> Result<Log, NameError> {
    let mut log = Log::empty(alloc);
    put_walk(alloc, &mut log, walk)?;
    Ok(log)
}

/// Whether an address serves a zone by the entries below a number.
#[derive(Clone, Copy)]
struct Serving {
    below: usize,
    ip: [u8; 4],
    zone: &'static str,
    wanted: bool,
}

/// Whether an entry answers the question for a type of a name, at a moment, from a server of a zone.
#[derive(Clone, Copy)]
struct Answering {
    moment: u64,
    name: &'static str,
    query_type: RecordType,
    entry: usize,
    zone: &'static str,
    wanted: bool,
}

/// The bounds of lives, in seconds, and the address that no answer may hold, if there is one.
#[derive(Clone, Copy)]
struct Terms {
    least_life: u32,
    most_life: u32,
    denied: Option<[u8; 4]>,
}

const A_DAY: Terms = Terms {
    least_life: 0,
    most_life: 86_400,
    denied: Some(STRANGER),
};

const OPEN: Terms = Terms {
    denied: None,
    ..A_DAY
};

/// The address alone.
fn net_of(alloc: Global, octets: [u8; 4]) -> Result<Nets, NoMemory> {
    let Ok(net) = IpNet::new(IpAddr::V4(ip_of(octets)), 32) else {
        unreachable!()
    };
    Ok(Nets::new(vec![in alloc; net]?))
}

/// One root, no server denied, one address of answers denied or none, and these bounds of lives.
fn policy_by(alloc: Global, terms: Terms) -> Result<Policy, NoMemory> {
    let mut options = RecursorOptions::standard(alloc)?;
    options.deny_server = Nets::empty(alloc);
    if let Some(denied) = terms.denied {
        options.deny_answers = net_of(alloc, denied)?;
    }
    let bounds = TtlBounds {
        positive_min: u64::from(terms.least_life),
        positive_max: u64::from(terms.most_life),
        negative_min: u64::from(terms.least_life),
        negative_max: u64::from(terms.most_life),
    };
    options.cache_policy = TtlConfig::new(alloc, bounds);
    Policy::new(alloc, &[IpAddr::V4(v4(1))], &options)
}

fn serves_in(policy: &Policy, log: &[LogEntry], below: usize, ip: [u8; 4], zone: &Name) -> bool {
    let setting = Setting { policy, log };
    serves(&setting, below, IpAddr::V4(ip_of(ip)), zone)
}

fn is_served(alloc: Global, log: &[LogEntry], row: Serving) -> Result<(), Fail> {
    let zone = domain(alloc, row.zone)?;
    let policy = policy_by(alloc, OPEN)?;
    let found = serves_in(&policy, log, row.below, row.ip, &zone);
    is_wanted(
        (row.zone, row.below, found),
        (row.zone, row.below, row.wanted),
    )
}

fn are_served(alloc: Global, log: &[LogEntry], rows: &[Serving]) -> Result<(), Fail> {
    for row in rows {
        is_served(alloc, log, *row)?;
    }
    Ok(())
}

/// Each row holds of the log of a walk.
fn serve(alloc: Global, walk: Walk, rows: &[Serving]) -> Result<(), Fail> {
    let log = log_of(alloc, walk)?;
    are_served(alloc, log.items(), rows)
}

fn answers_in(
    log: &[LogEntry],
    policy: &Policy,
    moment: u64,
    query: &Query,
    entry: usize,
    zone: &Name,
) -> bool {
    let setting = Setting { policy, log };
    base(&setting, moment, query, entry, zone)
}

fn is_answered(alloc: Global, log: &[LogEntry], terms: Terms, row: Answering) -> Result<(), Fail> {
    let query = query_of(alloc, row.name, row.query_type, DnsClass::IN);
    let (zone, query) = both(domain(alloc, row.zone), query)?;
    let policy = policy_by(alloc, terms)?;
    let found = answers_in(log, &policy, row.moment, &query, row.entry, &zone);
    is_wanted(
        (row.name, row.entry, found),
        (row.name, row.entry, row.wanted),
    )
}

fn are_answered(
    alloc: Global,
    log: &[LogEntry],
    terms: Terms,
    rows: &[Answering],
) -> Result<(), Fail> {
    for row in rows {
        is_answered(alloc, log, terms, *row)?;
    }
    Ok(())
}

/// Each row holds of the log of the worked example.
fn answer_by(alloc: Global, terms: Terms, rows: &[Answering]) -> Result<(), Fail> {
    let log = log_of(alloc, Walk::Worked)?;
    are_answered(alloc, log.items(), terms, rows)
}

const ROOT: Serving = Serving {
    below: 13,
    ip: [11, 0, 0, 1],
    zone: ".",
    wanted: true,
};

const COM: Serving = Serving {
    ip: [11, 0, 0, 2],
    zone: "com.",
    ..ROOT
};

const EXAMPLE: Serving = Serving {
    ip: [11, 0, 0, 3],
    zone: "EXAMPLE.com.",
    ..ROOT
};

/// Entry 8 tells that 11.0.0.3 serves `example.com.`, and it serves no zone above.
static WORKED: [Serving; 6] = [
    ROOT,
    COM,
    EXAMPLE,
    Serving {
        below: 8,
        wanted: false,
        ..EXAMPLE
    },
    Serving {
        zone: "com.",
        wanted: false,
        ..EXAMPLE
    },
    Serving {
        zone: ".",
        wanted: false,
        ..COM
    },
];

/// Stray glue serves nothing.
static STRAY: [Serving; 3] = [
    COM,
    Serving {
        ip: STRANGER,
        wanted: false,
        ..EXAMPLE
    },
    Serving {
        ip: STRANGER,
        wanted: false,
        ..COM
    },
];

/// A server that was chased serves, from the answer on.
static CHASED: [Serving; 3] = [
    Serving {
        ip: [11, 0, 0, 9],
        ..EXAMPLE
    },
    Serving {
        ip: [11, 0, 0, 9],
        below: 12,
        wanted: false,
        ..EXAMPLE
    },
    Serving {
        ip: STRANGER,
        wanted: false,
        ..EXAMPLE
    },
];

#[test]
fn servers_that_a_log_shows_serve_their_zone(rt: HostRuntime) -> Result<(), Fail> {
    let alloc = rt.alloc();
    serve(alloc, Walk::Worked, &WORKED)?;
    serve(alloc, Walk::Stray, &STRAY)?;
    serve(alloc, Walk::Chased, &CHASED)
}

/// The answer of the worked example.
const ANSWERED: Answering = Answering {
    moment: 0,
    name: "Example.com.",
    query_type: RecordType::A,
    entry: 12,
    zone: "example.com.",
    wanted: true,
};

/// The same in a way in which it is none.
const NOT_ANSWERED: Answering = Answering {
    wanted: false,
    ..ANSWERED
};

/// The referral of `example.com.` by the server of `com.`.
const REFERRED: Answering = Answering {
    query_type: RecordType::NS,
    entry: 8,
    zone: "com.",
    ..ANSWERED
};

/// The zone is that which the server serves, and the entry tells an answer to the question; 13 is none.
static OF_A_ZONE: [Answering; 11] = [
    ANSWERED,
    Answering {
        zone: "net.",
        ..NOT_ANSWERED
    },
    Answering {
        zone: "com.",
        ..NOT_ANSWERED
    },
    Answering {
        entry: 4,
        ..NOT_ANSWERED
    },
    Answering {
        entry: 11,
        ..NOT_ANSWERED
    },
    Answering {
        entry: 13,
        ..NOT_ANSWERED
    },
    Answering {
        query_type: RecordType::AAAA,
        ..NOT_ANSWERED
    },
    Answering {
        name: "www.example.com.",
        ..NOT_ANSWERED
    },
    Answering {
        name: "com.",
        entry: 4,
        zone: ".",
        ..REFERRED
    },
    REFERRED,
    Answering {
        zone: ".",
        wanted: false,
        ..REFERRED
    },
];

/// Its record has a TTL of 300 seconds.
static FOR_300: [Answering; 2] = [
    Answering {
        moment: 300_000_000,
        ..ANSWERED
    },
    Answering {
        moment: 300_000_001,
        ..NOT_ANSWERED
    },
];

static FOR_60: [Answering; 2] = [
    Answering {
        moment: 60_000_000,
        ..ANSWERED
    },
    Answering {
        moment: 60_000_001,
        ..NOT_ANSWERED
    },
];

static FOR_600: [Answering; 2] = [
    Answering {
        moment: 600_000_000,
        ..ANSWERED
    },
    Answering {
        moment: 600_000_001,
        ..NOT_ANSWERED
    },
];

const SHORT: Terms = Terms {
    most_life: 60,
    ..A_DAY
};

const LONG: Terms = Terms {
    least_life: 600,
    ..A_DAY
};

const DENIED: Terms = Terms {
    denied: Some(ANSWER),
    ..A_DAY
};

#[test]
fn an_entry_answers_within_its_zone_and_its_life(rt: HostRuntime) -> Result<(), Fail> {
    let alloc = rt.alloc();
    answer_by(alloc, A_DAY, &OF_A_ZONE)?;
    answer_by(alloc, A_DAY, &FOR_300)?;
    answer_by(alloc, SHORT, &FOR_60)?;
    answer_by(alloc, LONG, &FOR_600)?;
    answer_by(alloc, DENIED, &[NOT_ANSWERED])
}
