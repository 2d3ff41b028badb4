//! A lookup at a pool, and how it begins.
ghost use Rattle.std.specs.Prelude.{◌≡◌, ◌<◌, ◌≤◌, ◌+◌, ◌*◌, ◌^◌, [], Bool, false, IfOk, length, vec_capacity};
ghost use Rattle.std.specs.VecDeque.{deque_capacity};
ghost use Rattle.std.specs.List.{position};
ghost use Rattle.std.specs.declared.net.IpAddr.{IpAddr};
ghost use Rattle.pool_lookup.specs.Attempts.{is_open_at};
ghost use Rattle.pool_lookup.specs.Holds.{Holds};
ghost use Rattle.pool_lookup.specs.Lookup.{fresh, is_asking, is_decided, decided};
ghost use Rattle.pool_lookup.specs.Rounds.{begun};

use crate::attempt::Attempt;
use dns_core::{Boxed, DnsRequest, Message, NetError, NoMemory, Query};
use pool_rules::{PoolServer, RetryQueue};
use std::alloc::Global;
use std::collections::VecDeque;
use std::marker::Model;

/// What a lookup is at: it asks; it backs off until a moment, under an order that was given, after so
/// many polls of it that found nothing; or a step of a moment decided it.
#[derive(Drop)]
pub enum State {
    Asking,
    BackingOff {
        until: u64,
        order: Option<u64>,
        polls: u32,
    },
    Decided {
        answer: Result<Message, NetError>,
        at: u64,
    },
}

/// A lookup of a request at the servers of a pool. Moments and times are in microseconds. Its memory is
/// taken when it is made, but for the orders that it gives and what is made of a response.
#[derive(Drop)]
pub struct Lookup {
    pub(crate) request: DnsRequest,
    pub(crate) servers: Vec<PoolServer>,
    pub(crate) concurrency: usize,
    pub(crate) timeout: u64,
    pub(crate) start: u64,
    pub(crate) queue: RetryQueue,
    pub(crate) ready: VecDeque<PoolServer>,
    pub(crate) attempts: Vec<Attempt>,
    pub(crate) round_start: u64,
    pub(crate) round_off: bool,
    pub(crate) ended: Vec<u32>,
    pub(crate) closed_by: Vec<u64>,
    pub(crate) state: State,
}

impl Model for Lookup {
    ghost use Rattle.std.specs.Prelude.{◌≤◌, ◌+◌, ◌*◌, length, vec_capacity};
    ghost use Rattle.std.specs.VecDeque.{deque_capacity};
    ghost use Rattle.pool_lookup.specs.Lookup.{LookupState};

    ghost Value = { LookupState };

    ghost view = { λ l. record { request = l.request; servers = l.servers.items; concurrency = l.concurrency; timeout = l.timeout; start = l.start; queue = l.queue; ready = l.ready.items; attempts = l.attempts.items; round_start = l.round_start; round_off = l.round_off; ended = l.ended.items; closed_by = l.closed_by.items; state = l.state } };

    ghost invariant = { λ l. (length l.servers.items ≤ deque_capacity l.ready) × (length l.servers.items ≤ vec_capacity l.attempts) × (length l.servers.items ≤ vec_capacity l.ended) × (5 * length l.servers.items + 1 ≤ vec_capacity l.closed_by) };
}

/// What a lookup at some servers has at first, with its room.
#[derive(Drop)]
struct Rooms {
    queue: RetryQueue,
    ready: VecDeque<PoolServer>,
    attempts: Vec<Attempt>,
    ended: Vec<u32>,
    closed_by: Vec<u64>,
}

/// Takes the room that a lookup at these servers needs.
fn take_rooms(alloc: Global, servers: &[PoolServer]) -> Result<Rooms, NoMemory>
    requires { length servers.now < 2 ^ 32 }
    ensures queue { IfOk result (λ r. r.queue ≡ record { waiting = servers.now; busy = []; udp_off = false; kept = NetError.NoConnections; sleeps = 0; most = length servers.now }) }
    ensures empty { IfOk result (λ r. (r.ready.items ≡ []) × (r.attempts.items ≡ []) × (r.ended.items ≡ []) × (r.closed_by.items ≡ [])) }
    ensures room { IfOk result (λ r. (length servers.now ≤ deque_capacity r.ready) × (length servers.now ≤ vec_capacity r.attempts) × (length servers.now ≤ vec_capacity r.ended) × (5 * length servers.now + 1 ≤ vec_capacity r.closed_by)) }
{
    let places = servers.len();
    let ready = VecDeque::with_capacity(alloc, places)?;
    let attempts = Vec::with_capacity(alloc, places)?;
    let ended = Vec::with_capacity(alloc, places)?;
    let closed_by = Vec::with_capacity(alloc, 5 * places + 1)?;
    let queue = RetryQueue::new(alloc, servers)?;
    Ok(Rooms {
        queue,
        ready,
        attempts,
        ended,
        closed_by,
    })
}

impl Lookup {
    /// A lookup that has still to ask all of these servers. Its first round is to begin.
    fn unbegun(
        alloc: Global,
        request: DnsRequest,
        servers: Vec<PoolServer>,
        concurrency: usize,
        timeout: u64,
        now: u64,
    ) -> Result<Boxed<Self>, NoMemory>
        requires { length servers.items < 2 ^ 32 }
        ensures { IfOk result (λ l. l ≡ fresh request servers.items concurrency timeout now) }
    {
        let Ok(rooms) = take_rooms(alloc, servers.as_slice()) else {
            drop(request);
            drop(servers);
            return Err(NoMemory);
        };
        let Rooms {
            queue,
            ready,
            attempts,
            ended,
            closed_by,
        } = rooms;
        Boxed::new(
            alloc,
            Lookup {
                request,
                servers,
                concurrency,
                timeout,
                start: now,
                queue,
                ready,
                attempts,
                round_start: now,
                round_off: false,
                ended,
                closed_by,
                state: State::Asking,
            },
        )
    }

    /// A lookup of a request at the servers of a pool, some of which are asked side by side. Its first
    /// round begins at once.
    pub fn begin(
        alloc: Global,
        request: DnsRequest,
        servers: Vec<PoolServer>,
        concurrency: usize,
        timeout: u64,
        now: u64,
    ) -> Result<Boxed<Self>, NoMemory>
        requires few { length servers.items < 2 ^ 32 }
        requires some { 1 ≤ concurrency }
        ensures begun { IfOk result (λ l. l ≡ begun request servers.items concurrency timeout now) }
        ensures holds { (denied : IpAddr → Bool) → IfOk result (λ l. Holds denied l) }
    {
        let mut lookup = Lookup::unbegun(alloc, request, servers, concurrency, timeout, now)?;
        lookup.get_mut().begin_round(now);
        Ok(lookup)
    }

    /// The question that is looked up.
    pub fn query(&self) -> &Query
        ensures { result.now ≡ self.now.request.query }
    {
        &self.request.query
    }

    /// The log entries that closed its attempts, in the order of their ends.
    pub fn closed_by(&self) -> &[u64]
        ensures { result.now ≡ self.now.closed_by }
    {
        self.closed_by.as_slice()
    }

    pub(crate) fn is_asking(&self) -> bool
        ensures { result ≡ is_asking self.now.state }
    {
        matches!(self.state, State::Asking)
    }

    pub fn is_decided(&self) -> bool
        ensures { result ≡ is_decided self.now.state }
    {
        matches!(self.state, State::Decided { .. })
    }

    /// The place of the attempt whose open order has a number.
    pub(crate) fn open_place(&self, number: u64) -> Option<usize>
        ensures { result ≡ position (is_open_at number) self.now.attempts }
    {
        self.attempts.iter().position(|a| a.is_open_at(number))
    }

    /// Comes to be at this.
    pub(crate) fn enter(&mut self, state: State)
        ensures { self.new ≡ record self.old { state = state } }
    {
        self.state = state;
    }

    /// A step of a moment decides it.
    pub(crate) fn decide(&mut self, answer: Result<Message, NetError>, now: u64)
        ensures { self.new ≡ decided answer now self.old }
    {
        self.enter(State::Decided { answer, at: now });
    }
}
