//! The calls of a script as an upstream.
ghost use Rattle.std.specs.Prelude.{◌≡◌, false, Some, None, IfOk, IsTrue, is_some};
ghost use Rattle.script_upstream.specs.Stage.{TellsConnection, IsReply, IsConnectionTold, IsReplyTold};

use crate::courses::index::Endpoint;
use crate::script::late::Room;
use crate::upstream::ScriptUpstream;
use dns_core::{
    ConnectOptions, ConnectionConfig, ConnectionProvider, DnsRequest, IoKind, Message, NetError,
    NoMemory, Poll, Query, ToldOutcome, TryClone,
};
use std::net::IpAddr;

/// A connection that is being opened.
#[derive(Drop)]
pub struct ScriptOpening {
    of: u64,
    endpoint: Endpoint,
    is_ready: bool,
    room: Room,
}

/// A question that is being asked.
#[derive(Drop)]
pub struct ScriptExchange {
    of: u64,
    query: Query,
    is_ready: bool,
    room: Room,
}

impl ScriptUpstream {
    ghost use Rattle.std.specs.Prelude.{◌+◌, length, OnOk, OnErr};
    ghost use Rattle.script_upstream.specs.Upstream.{told_by, Notes, NotesNothing};
    ghost use Rattle.script_upstream.specs.Giving.{refusal};
    ghost use Rattle.dns_core.specs.declared.log.LogEntry.TheVariants.{Opened, Asked};

    fn begin_opening(&mut self, endpoint: Endpoint, now: u64) -> Result<ScriptOpening, NoMemory>
        requires { refusal self.old.script endpoint ≡ None }
        ensures ok { OnOk result (Notes self.old self.new (Opened endpoint.ip endpoint.protocol now None)) }
        ensures opening { IfOk result (λ f. (f.of ≡ length (told_by self.old) + 1) × (f.endpoint ≡ endpoint) × (f.is_ready ≡ false)) }
        ensures err { OnErr result (NotesNothing self.old self.new) }
    {
        let room = Room::new(self.alloc)?;
        let of = self.note_open(endpoint, now)?;
        Ok(ScriptOpening {
            of,
            endpoint,
            is_ready: false,
            room,
        })
    }

    fn begin_exchange(
        &mut self,
        endpoint: Endpoint,
        query: &Query,
        now: u64,
    ) -> Result<ScriptExchange, NoMemory>
        ensures ok { OnOk result (Notes self.old self.new (Asked endpoint.ip endpoint.protocol query.now now None)) }
        ensures exchange { IfOk result (λ e. (e.of ≡ length (told_by self.old) + 1) × (e.query ≡ query.now) × (e.is_ready ≡ false)) }
        ensures err { OnErr result (NotesNothing self.old self.new) }
    {
        let room = Room::new(self.alloc)?;
        let asked = query.try_clone(self.alloc)?;
        let of = self.note_ask(endpoint, query, now)?;
        Ok(ScriptExchange {
            of,
            query: asked,
            is_ready: false,
            room,
        })
    }
}

fn connected_or_error(outcome: ToldOutcome, endpoint: Endpoint) -> Result<Endpoint, NetError>
    requires { TellsConnection outcome }
    ensures { IsConnectionTold outcome endpoint result }
{
    match outcome {
        ToldOutcome::Connected => Ok(endpoint),
        ToldOutcome::Message(_) => unreachable!(),
        ToldOutcome::Error(error) => Err(error),
    }
}

fn message_or_error(outcome: ToldOutcome) -> Result<Message, NetError>
    requires { IsReply outcome }
    ensures { IsReplyTold outcome result }
{
    match outcome {
        ToldOutcome::Connected => unreachable!(),
        ToldOutcome::Message(message) => Ok(message),
        ToldOutcome::Error(error) => Err(error),
    }
}

impl ConnectionProvider for ScriptUpstream {
    type Conn = Endpoint;

    type FutureConn = ScriptOpening;

    type Exchange = ScriptExchange;

    ghost use Rattle.script_upstream.specs.Upstream.{told_by, peer_of};
    ghost use Rattle.script_upstream.specs.Giving.{Gives};
    ghost use Rattle.std.specs.Prelude.{Some, not};

    ghost log = { λ s. Some (told_by s) };

    ghost faults = { λ s. s.faults };

    ghost pendings = { λ s. s.pendings };

    ghost vouches = { λ s es. Gives s.script es };

    ghost peer = { λ c. peer_of c };

    ghost opened = { λ f. f.of };

    ghost opening = { λ f. peer_of f.endpoint };

    ghost opens = { λ f. not f.is_ready };

    ghost asked = { λ e. e.of };

    ghost question = { λ e. e.query };

    ghost waits = { λ e. not e.is_ready };

    fn new_connection(
        &mut self,
        ip: IpAddr,
        config: &ConnectionConfig,
        _cx: &ConnectOptions,
        now: u64,
    ) -> Result<ScriptOpening, NetError> {
        let endpoint = Endpoint {
            ip,
            protocol: config.protocol.to_protocol(),
        };
        if self.is_refused(&endpoint) {
            return match self.note_refusal(endpoint, now) {
                Ok(()) => {
                    self.count_fault();
                    Err(NetError::Io(IoKind::Refused))
                }
                Err(_) => Err(NetError::NoMemory),
            };
        }
        match self.begin_opening(endpoint, now) {
            Ok(opening) => Ok(opening),
            Err(_) => Err(NetError::NoMemory),
        }
    }

    fn poll_connection(
        &mut self,
        f: &mut ScriptOpening,
        now: u64,
    ) -> Poll<Result<Endpoint, NetError>> {
        match self.poll_open(f.of, now) {
            Poll::Pending => {
                self.count_pending();
                Poll::Pending
            }
            Poll::Ready(Err(_)) => Poll::Ready(Err(NetError::NoMemory)),
            Poll::Ready(Ok(outcome)) => {
                f.is_ready = true;
                let told = connected_or_error(outcome, f.endpoint);
                if told.is_err() {
                    self.count_fault();
                }
                Poll::Ready(told)
            }
        }
    }

    fn give_up_connection(&mut self, f: ScriptOpening, now: u64) {
        let ScriptOpening {
            of,
            endpoint: _,
            is_ready: _,
            room,
        } = f;
        self.note_give_up(room, of, now);
    }

    fn send(
        &mut self,
        conn: Endpoint,
        request: &DnsRequest,
        now: u64,
    ) -> Result<ScriptExchange, NetError> {
        match self.begin_exchange(conn, &request.query, now) {
            Ok(exchange) => Ok(exchange),
            Err(_) => Err(NetError::NoMemory),
        }
    }

    fn poll_exchange(
        &mut self,
        e: &mut ScriptExchange,
        now: u64,
    ) -> Poll<Result<Message, NetError>> {
        match self.poll_ask(e.of, &e.query, now) {
            Poll::Pending => {
                self.count_pending();
                Poll::Pending
            }
            Poll::Ready(Err(_)) => Poll::Ready(Err(NetError::NoMemory)),
            Poll::Ready(Ok(outcome)) => {
                e.is_ready = true;
                let told = message_or_error(outcome);
                if told.is_err() {
                    self.count_fault();
                }
                Poll::Ready(told)
            }
        }
    }

    fn give_up(&mut self, e: ScriptExchange, now: u64) {
        let ScriptExchange {
            of,
            query: _,
            is_ready: _,
            room,
        } = e;
        self.note_give_up(room, of, now);
    }
}
