//! The calls of a world as an upstream.
ghost use Rattle.std.specs.Prelude.{◌≡◌, false, Some, None, IfOk};

use crate::upstream::WorldUpstream;
use dns_core::{
    ConnectOptions, ConnectionConfig, ConnectionProvider, DnsRequest, Message, NetError, NoMemory,
    Poll, Query, TryClone,
};
use script_upstream::{Endpoint, Room};
use std::net::IpAddr;

/// A connection that is being opened.
#[derive(Drop)]
pub struct WorldOpening {
    of: u64,
    endpoint: Endpoint,
    is_ready: bool,
    room: Room,
}

/// A question that is being asked.
#[derive(Drop)]
pub struct WorldExchange {
    of: u64,
    query: Query,
    is_ready: bool,
    room: Room,
}

impl WorldUpstream {
    ghost use Rattle.std.specs.Prelude.{◌+◌, length, OnOk, OnErr};
    ghost use Rattle.world_upstream.specs.Upstream.{told_by, Notes, NotesNothing};
    ghost use Rattle.dns_core.specs.declared.log.LogEntry.TheVariants.{Opened, Asked};

    fn begin_opening(&mut self, endpoint: Endpoint, now: u64) -> Result<WorldOpening, NoMemory>
        ensures ok { OnOk result (Notes self.old self.new (Opened endpoint.ip endpoint.protocol now None)) }
        ensures opening { IfOk result (λ f. (f.of ≡ length (told_by self.old) + 1) × (f.endpoint ≡ endpoint) × (f.is_ready ≡ false)) }
        ensures err { OnErr result (NotesNothing self.old self.new) }
    {
        let room = Room::new(self.alloc)?;
        let of = self.note_open(endpoint, now)?;
        Ok(WorldOpening {
            of,
            endpoint,
            is_ready: false,
            room,
        })
    }

    fn begin_exchange(
        &mut self,
        endpoint: Endpoint,
        query: &Query,
        now: u64,
    ) -> Result<WorldExchange, NoMemory>
        ensures ok { OnOk result (Notes self.old self.new (Asked endpoint.ip endpoint.protocol query.now now None)) }
        ensures exchange { IfOk result (λ e. (e.of ≡ length (told_by self.old) + 1) × (e.query ≡ query.now) × (e.is_ready ≡ false)) }
        ensures err { OnErr result (NotesNothing self.old self.new) }
    {
        let room = Room::new(self.alloc)?;
        let asked = query.try_clone(self.alloc)?;
        let of = self.note_ask(endpoint, query, now)?;
        Ok(WorldExchange {
            of,
            query: asked,
            is_ready: false,
            room,
        })
    }
}

impl ConnectionProvider for WorldUpstream {
    type Conn = Endpoint;

    type FutureConn = WorldOpening;

    type Exchange = WorldExchange;

    ghost use Rattle.script_upstream.specs.Upstream.{peer_of};
    ghost use Rattle.world_upstream.specs.Upstream.{told_by};
    ghost use Rattle.world_upstream.specs.Giving.{Gives};
    ghost use Rattle.std.specs.Prelude.{Some, not};

    ghost log = { λ s. Some (told_by s) };

    ghost faults = { λ s. 0 };

    ghost pendings = { λ s. s.pendings };

    ghost vouches = { λ s es. Gives s.world es };

    ghost peer = { λ c. peer_of c };

    ghost opened = { λ f. f.of };

    ghost opening = { λ f. peer_of f.endpoint };

    ghost opens = { λ f. not f.is_ready };

    ghost asked = { λ e. e.of };

    ghost question = { λ e. e.query };

    ghost waits = { λ e. not e.is_ready };

    fn new_connection(
        &mut self,
        ip: IpAddr,
        config: &ConnectionConfig,
        _cx: &ConnectOptions,
        now: u64,
    ) -> Result<WorldOpening, NetError> {
        let endpoint = Endpoint {
            ip,
            protocol: config.protocol.to_protocol(),
        };
        match self.begin_opening(endpoint, now) {
            Ok(opening) => Ok(opening),
            Err(_) => Err(NetError::NoMemory),
        }
    }

    fn poll_connection(
        &mut self,
        f: &mut WorldOpening,
        now: u64,
    ) -> Poll<Result<Endpoint, NetError>> {
        match self.poll_open(f.of, now) {
            Ok(()) => {
                f.is_ready = true;
                Poll::Ready(Ok(f.endpoint))
            }
            Err(_) => Poll::Ready(Err(NetError::NoMemory)),
        }
    }

    fn give_up_connection(&mut self, f: WorldOpening, now: u64) {
        let WorldOpening {
            of,
            endpoint: _,
            is_ready: _,
            room,
        } = f;
        self.note_give_up(room, of, now);
    }

    fn send(
        &mut self,
        conn: Endpoint,
        request: &DnsRequest,
        now: u64,
    ) -> Result<WorldExchange, NetError> {
        match self.begin_exchange(conn, &request.query, now) {
            Ok(exchange) => Ok(exchange),
            Err(_) => Err(NetError::NoMemory),
        }
    }

    fn poll_exchange(
        &mut self,
        e: &mut WorldExchange,
        now: u64,
    ) -> Poll<Result<Message, NetError>> {
        match self.poll_ask(e.of, &e.query, now) {
            Poll::Pending => {
                self.count_pending();
                Poll::Pending
            }
            Poll::Ready(Err(_)) => Poll::Ready(Err(NetError::NoMemory)),
            Poll::Ready(Ok(message)) => {
                e.is_ready = true;
                Poll::Ready(Ok(message))
            }
        }
    }

    fn give_up(&mut self, e: WorldExchange, now: u64) {
        let WorldExchange {
            of,
            query: _,
            is_ready: _,
            room,
        } = e;
        self.note_give_up(room, of, now);
    }
}
