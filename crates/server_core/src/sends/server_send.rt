//! One send of a request to one server, over the connections that are kept to it.
ghost use Rattle.std.specs.Prelude.{◌≡◌, ◌≤◌, ◌<◌, ◌+◌, ℕ, if◌then◌else◌, length, slice_get, true, false, IfOk, OnOk, OnErr, MatchResult, IsOk};
ghost use Rattle.dns_core.specs.Connection.{protocol_of};
ghost use Rattle.dns_core.specs.declared.connection.ConnectionConfig.{ConnectionConfig};
ghost use Rattle.server_core.specs.declared.name_server.Connection.{Connection};
ghost use Rattle.server_core.specs.Hearing.{changed_at, without_dead, with_opened};
ghost use Rattle.server_core.specs.Servers.{Server, place_of, server_of};
ghost use Rattle.server_core.specs.Sending.{want_of, is_open, asked_of, opening_of, pendings, asks_left, asks_of, end_of, after_end, after_next, IsAskedOver, IsOpenedOver, OpensSelected, Begins, StepIs, TellsEnd};
ghost use Rattle.server_core.specs.Sending.{is_last_poll, after_poll, after_put, takes_memory, after_error, lost, result_of, told, connected, polled_once, polled, come_to, lost_put, told_put, heard_put};

use crate::heard::{heard_error, heard_of};
use crate::name_server::NameServer;
use crate::orders::order::{After, Order, Outcome, Tick};
use crate::sends::context::PoolContext;
use crate::sends::policy::ConnectionPolicy;
use crate::server_table::ServerTable;
use crate::status::Status;
use dns_core::{
    ConnectionConfig, DnsError, DnsRequest, IoKind, Message, NetError, NoMemory, Protocol,
    TryClone, classify,
};
use std::alloc::Global;
use std::mem;
use std::net::IpAddr;

/// A question that was asked: over which connection, when, and whether this was there before the send.
#[derive(Clone, Copy, Debug, PartialEq, Eq)]
pub struct Asked {
    pub conn: u64,
    pub at: u64,
    pub again: bool,
}

/// Where a send stands. `polls` counts the polls of its order that found nothing.
#[derive(Drop)]
pub enum Stage {
    Ready,
    Opening {
        protocol: Protocol,
        order: u64,
        polls: u32,
    },
    Opened {
        protocol: Protocol,
        conn: u64,
    },
    Asking {
        asked: Asked,
        polls: u32,
    },
    Ended(Result<Message, NetError>),
    Over,
}

/// What a send does next: it gives an order, waits for the outcome of one, or is done. It tells once
/// that it is done, and waits from then on.
#[derive(Drop)]
pub enum SendStep {
    Order(Order),
    Waiting,
    Done(Result<Message, NetError>),
}

/// A send of a request to a server of a table, over the connections that a policy allows. `retried`
/// tells whether a connection that was used again was closed.
#[derive(Drop)]
pub struct ServerSend {
    pub server: u32,
    pub request: DnsRequest,
    pub policy: ConnectionPolicy,
    pub retried: bool,
    pub stage: Stage,
}

/// What a stage comes to next.
#[derive(Clone, Copy)]
enum Want {
    Begin,
    Ask { protocol: Protocol, conn: u64 },
    Wait,
    Tell,
}

impl Stage {
    fn want(&self) -> Want
        ensures { result ≡ want_of self.now }
    {
        match self {
            Stage::Ready => Want::Begin,
            Stage::Opened { protocol, conn } => Want::Ask {
                protocol: *protocol,
                conn: *conn,
            },
            Stage::Opening { .. } | Stage::Asking { .. } | Stage::Over => Want::Wait,
            Stage::Ended(_) => Want::Tell,
        }
    }

    /// Whether an order of it is open.
    pub fn is_open(&self) -> bool
        ensures { result ≡ is_open self.now }
    {
        match self {
            Stage::Opening { .. } | Stage::Asking { .. } => true,
            Stage::Ready | Stage::Opened { .. } | Stage::Ended(_) | Stage::Over => false,
        }
    }

    fn asked(&self) -> Option<Asked>
        ensures { result ≡ asked_of self.now }
    {
        match self {
            Stage::Asking { asked, .. } => Some(*asked),
            _ => None,
        }
    }

    fn opening(&self) -> Option<(Protocol, u64)>
        ensures { result ≡ opening_of self.now }
    {
        match self {
            Stage::Opening {
                protocol,
                order,
                ..
            } => Some((*protocol, *order)),
            _ => None,
        }
    }

    /// How many polls of its order found nothing.
    fn polls(&self) -> u32
        ensures { result ≡ pendings self.now }
    {
        match self {
            Stage::Opening { polls, .. } => *polls,
            Stage::Asking { polls, .. } => *polls,
            _ => 0,
        }
    }

    /// Whether a poll that finds nothing is the last one that patience allows.
    fn is_last_poll(&self, tick: Tick) -> bool
        ensures { result ≡ is_last_poll tick.patience self.now }
    {
        tick.is_last_poll(self.polls())
    }

    /// Counts a poll that found nothing.
    fn count_poll(&mut self)
        requires { pendings self.old < 4294967295 }
        ensures { self.new ≡ polled_once self.old }
    {
        match self {
            Stage::Opening { polls, .. } => *polls += 1,
            Stage::Asking { polls, .. } => *polls += 1,
            Stage::Ready | Stage::Opened { .. } | Stage::Ended(_) | Stage::Over => {}
        }
    }
}

fn result_of(class: Result<Message, DnsError>) -> Result<Message, NetError>
    ensures { result ≡ result_of class }
{
    match class {
        Ok(message) => Ok(message),
        Err(error) => Err(NetError::Dns(error)),
    }
}

impl ServerSend {
    /// A send that has not begun.
    pub fn new(server: u32, request: DnsRequest, policy: ConnectionPolicy) -> Self
        ensures fresh { result ≡ record { server = server; request = request; policy = policy; retried = false; stage = Stage.Ready } }
        ensures asks { asks_left result ≡ 2 }
    {
        ServerSend {
            server,
            request,
            policy,
            retried: false,
            stage: Stage::Ready,
        }
    }

    /// Comes to a stage.
    fn enter(&mut self, stage: Stage)
        ensures { self.new ≡ record self.old { stage = stage } }
    {
        self.stage = stage;
    }

    /// The next step at a moment. An order that it gives is one of this number.
    pub fn next(
        &mut self,
        alloc: Global,
        table: &mut ServerTable,
        cx: &mut PoolContext,
        number: u64,
        tick: Tick,
    ) -> Result<SendStep, NoMemory>
        requires { place_of self.old.server < length table.old }
        ensures same { self.new ≡ record self.old { stage = self.new.stage } }
        ensures table { table.new ≡ changed_at (after_next self.old.stage result) self.old.server table.old }
        ensures step { (server : Server) → server_of table.old self.old.server ≡ Some server
            → IfOk result (λ step. StepIs self.old self.old.stage number tick.now server step self.new.stage) }
        ensures asks { IfOk result (λ step. asks_left self.new + asks_of step ≤ asks_left self.old) }
        ensures context { cx.new ≡ cx.old }
        ensures err { OnErr result (self.new ≡ self.old) }
    {
        match self.stage.want() {
            Want::Begin => self.begin(alloc, table, cx, number, tick.now),
            Want::Ask { protocol, conn } => self.ask_first(alloc, table, protocol, conn, tick.now),
            Want::Wait => Ok(SendStep::Waiting),
            Want::Tell => Ok(self.tell()),
        }
    }

    /// What it ended with, where that was not told yet: it is over from then on. Else nothing changes.
    pub fn take_end(&mut self) -> Option<Result<Message, NetError>>
        ensures end { result ≡ end_of self.old.stage }
        ensures send { self.new ≡ record self.old { stage = after_end self.old.stage } }
        ensures asks { asks_left self.new ≤ asks_left self.old }
    {
        match mem::replace(&mut self.stage, Stage::Over) {
            Stage::Ended(result) => Some(result),
            other => {
                self.enter(other);
                None
            }
        }
    }

    /// Tells once what it ended with.
    fn tell(&mut self) -> SendStep
        requires { want_of self.old.stage ≡ Want.Tell }
        ensures tells { TellsEnd self.old.stage result self.new.stage }
        ensures same { self.new ≡ record self.old { stage = self.new.stage } }
    {
        match self.take_end() {
            Some(result) => SendStep::Done(result),
            None => SendStep::Waiting,
        }
    }

    /// Drops the connections that failed, and uses one of the others again, or opens one. Until then
    /// one that failed stays in the list: a message that is told over it makes it stand again.
    fn begin(
        &mut self,
        alloc: Global,
        table: &mut ServerTable,
        cx: &PoolContext,
        number: u64,
        now: u64,
    ) -> Result<SendStep, NoMemory>
        requires live { place_of self.old.server < length table.old }
        requires ready { self.old.stage ≡ Stage.Ready }
        ensures same { self.new ≡ record self.old { stage = self.new.stage } }
        ensures table { table.new ≡ changed_at without_dead self.old.server table.old }
        ensures step { (server : Server) → server_of table.old self.old.server ≡ Some server
            → IfOk result (λ step. Begins self.old number now (without_dead server) step self.new.stage) }
        ensures err { OnErr result (self.new ≡ self.old) }
    {
        table.drop_dead(self.server);
        self.select(alloc, table.get(self.server), cx, number, now)
    }

    fn select(
        &mut self,
        alloc: Global,
        server: &NameServer,
        cx: &PoolContext,
        number: u64,
        now: u64,
    ) -> Result<SendStep, NoMemory>
        ensures same { self.new ≡ record self.old { stage = self.new.stage } }
        ensures step { IfOk result (λ step. Begins self.old number now server.now step self.new.stage) }
        ensures err { OnErr result (self.new ≡ self.old) }
    {
        match self.policy.select_connection(server, cx, now) {
            Some(place) => self.ask_again(alloc, server, place, now),
            None => self.open_selected(alloc, server, cx, number, now),
        }
    }

    fn ask_again(
        &mut self,
        alloc: Global,
        server: &NameServer,
        place: usize,
        now: u64,
    ) -> Result<SendStep, NoMemory>
        requires { place < length server.now.connections }
        ensures same { self.new ≡ record self.old { stage = self.new.stage } }
        ensures step { (c : Connection) → slice_get server.now.connections place ≡ Some c
            → IfOk result (λ step. IsAskedOver self.old now true c.protocol c.number server.now step self.new.stage) }
        ensures err { OnErr result (self.new ≡ self.old) }
    {
        let connection = &server.connections()[place];
        let conn = connection.number;
        let request = self.request.try_clone(alloc)?;
        let protocol = connection.protocol;
        Ok(self.ask(
            server.ip(),
            protocol,
            request,
            Asked {
                conn,
                at: now,
                again: true,
            },
        ))
    }

    /// Asks a copy of its request.
    fn ask(&mut self, ip: IpAddr, protocol: Protocol, request: DnsRequest, asked: Asked) -> SendStep
        ensures send { self.new ≡ record self.old { stage = Stage.Asking asked 0 } }
        ensures step { result ≡ SendStep.Order (Order.Ask asked.conn ip protocol request) }
    {
        self.enter(Stage::Asking { asked, polls: 0 });
        SendStep::Order(Order::Ask {
            conn: asked.conn,
            ip,
            protocol,
            request,
        })
    }

    /// Opens a connection over the way that the policy selects. Where it selects none, the send is done.
    fn open_selected(
        &mut self,
        alloc: Global,
        server: &NameServer,
        cx: &PoolContext,
        number: u64,
        now: u64,
    ) -> Result<SendStep, NoMemory>
        ensures same { self.new ≡ record self.old { stage = self.new.stage } }
        ensures step { IfOk result (λ step. OpensSelected self.old number server.now step self.new.stage) }
        ensures err { OnErr result (self.new ≡ self.old) }
    {
        match self.policy.select_connection_config(server, cx, now) {
            Some(place) => self.open_at(alloc, server, place, number),
            None => Ok(self.close_off()),
        }
    }

    fn close_off(&mut self) -> SendStep
        ensures send { self.new ≡ record self.old { stage = Stage.Over } }
        ensures step { result ≡ SendStep.Done (Err NetError.NoConnections) }
    {
        self.enter(Stage::Over);
        SendStep::Done(Err(NetError::NoConnections))
    }

    fn open_at(
        &mut self,
        alloc: Global,
        server: &NameServer,
        place: usize,
        number: u64,
    ) -> Result<SendStep, NoMemory>
        requires { place < length server.now.config.connections }
        ensures same { self.new ≡ record self.old { stage = self.new.stage } }
        ensures step { (c : ConnectionConfig) → slice_get server.now.config.connections place ≡ Some c
            → IfOk result (λ step. IsOpenedOver number c server.now step self.new.stage) }
        ensures err { OnErr result (self.new ≡ self.old) }
    {
        let config = server.configs()[place].try_clone(alloc)?;
        Ok(self.give_open(server.ip(), config, number))
    }

    fn give_open(&mut self, ip: IpAddr, config: ConnectionConfig, number: u64) -> SendStep
        ensures send { self.new ≡ record self.old { stage = Stage.Opening (protocol_of config.protocol) number 0 } }
        ensures step { result ≡ SendStep.Order (Order.Open ip config) }
    {
        let protocol = config.protocol.to_protocol();
        self.enter(Stage::Opening {
            protocol,
            order: number,
            polls: 0,
        });
        SendStep::Order(Order::Open { ip, config })
    }

    /// Keeps the connection that was opened, and asks over it.
    fn ask_first(
        &mut self,
        alloc: Global,
        table: &mut ServerTable,
        protocol: Protocol,
        conn: u64,
        now: u64,
    ) -> Result<SendStep, NoMemory>
        requires live { place_of self.old.server < length table.old }
        ensures same { self.new ≡ record self.old { stage = self.new.stage } }
        ensures table { OnOk result (table.new ≡ changed_at (with_opened conn protocol) self.old.server table.old) }
        ensures step { (server : Server) → server_of table.old self.old.server ≡ Some server
            → IfOk result (λ step. IsAskedOver self.old now false protocol conn server step self.new.stage) }
        ensures err { OnErr result (self.new ≡ self.old) }
        ensures kept { OnErr result (table.new ≡ table.old) }
    {
        let ip = table.get(self.server).ip();
        let request = self.request.try_clone(alloc)?;
        table.keep_opened(self.server, conn, protocol)?;
        Ok(self.ask(
            ip,
            protocol,
            request,
            Asked {
                conn,
                at: now,
                again: false,
            },
        ))
    }

    /// Takes the outcome of the open order. The last poll that patience allows ends the order as a
    /// timeout, and whoever carries the order is then to give it up. Out of memory, nothing has changed.
    pub fn put(
        &mut self,
        alloc: Global,
        table: &mut ServerTable,
        cx: &mut PoolContext,
        outcome: Outcome,
        tick: Tick,
    ) -> Result<After, NoMemory>
        requires { place_of self.old.server < length table.old }
        ensures after { IfOk result (λ after. after ≡ after_put tick.patience self.old.stage outcome) }
        ensures send { MatchResult result (λ after. self.new ≡ come_to tick.patience outcome self.old) (λ error. self.new ≡ self.old) }
        ensures table { MatchResult result (λ after. table.new ≡ changed_at (heard_put tick.patience self.old.stage tick.now outcome) self.old.server table.old)
            (λ error. table.new ≡ table.old) }
        ensures asks { asks_left self.new ≤ asks_left self.old }
        ensures context { cx.new ≡ cx.old }
        ensures ample { takes_memory self.old.stage outcome ≡ false → IsOk result }
    {
        if !self.stage.is_open() {
            drop(outcome);
            return Ok(After::Late);
        }
        match outcome {
            Outcome::Pending { .. } => Ok(self.poll(table, tick)),
            Outcome::Connected { .. } => {
                self.connect(table, tick.now);
                Ok(After::Ended)
            }
            Outcome::Told { message, .. } => {
                let class = classify(alloc, message)?;
                self.hear(table, class, tick.now);
                Ok(After::Ended)
            }
            Outcome::Failed { error, .. } => {
                self.lose(table, error, tick.now);
                Ok(After::Ended)
            }
            Outcome::Slept => {
                self.lose(table, NetError::Io(IoKind::Other), tick.now);
                Ok(After::Ended)
            }
        }
    }

    /// One poll more of the open order found nothing.
    fn poll(&mut self, table: &mut ServerTable, tick: Tick) -> After
        requires { place_of self.old.server < length table.old }
        ensures after { result ≡ after_poll tick.patience self.old.stage }
        ensures send { self.new ≡ polled tick.patience self.old }
        ensures table { table.new ≡ (if is_last_poll tick.patience self.old.stage
            then changed_at (lost_put (asked_of self.old.stage) tick.now NetError.Timeout) self.old.server table.old
            else table.old) }
    {
        if self.stage.is_last_poll(tick) {
            self.lose(table, NetError::Timeout, tick.now);
            After::GiveUp
        } else {
            self.stage.count_poll();
            After::Kept
        }
    }

    /// The connection is there, where one was being opened.
    fn connect(&mut self, table: &mut ServerTable, now: u64)
        requires { place_of self.old.server < length table.old }
        ensures send { self.new ≡ connected self.old }
        ensures table { table.new ≡ changed_at (lost_put (asked_of self.old.stage) now (NetError.Io IoKind.Other)) self.old.server table.old }
    {
        match self.stage.opening() {
            Some(opening) => self.enter(Stage::Opened {
                protocol: opening.0,
                conn: opening.1,
            }),
            None => self.lose(table, NetError::Io(IoKind::Other), now),
        }
    }

    /// A response was told, where one was asked for.
    fn hear(&mut self, table: &mut ServerTable, class: Result<Message, DnsError>, now: u64)
        requires { place_of self.old.server < length table.old }
        ensures send { self.new ≡ told class self.old }
        ensures table { table.new ≡ changed_at (told_put (asked_of self.old.stage) now class) self.old.server table.old }
    {
        match self.stage.asked() {
            Some(asked) => {
                let heard = heard_of(now.saturating_sub(asked.at), &class);
                table.hear(self.server, asked.conn, Status::Established, heard, now);
                self.enter(Stage::Ended(result_of(class)));
            }
            None => {
                drop(class);
                self.enter(Stage::Ended(Err(NetError::Io(IoKind::Other))));
            }
        }
    }

    /// The order came to nothing but an error.
    fn lose(&mut self, table: &mut ServerTable, error: NetError, now: u64)
        requires { place_of self.old.server < length table.old }
        ensures send { self.new ≡ lost error self.old }
        ensures table { table.new ≡ changed_at (lost_put (asked_of self.old.stage) now error) self.old.server table.old }
    {
        match self.stage.asked() {
            Some(asked) => {
                let heard = heard_error(&error);
                table.hear(self.server, asked.conn, Status::Failed, heard, now);
                self.lose_ask(asked, error);
            }
            None => self.enter(Stage::Ended(Err(error))),
        }
    }

    /// Tries once more, or ends.
    fn lose_ask(&mut self, asked: Asked, error: NetError)
        ensures { self.new ≡ after_error (Some asked) error self.old }
    {
        if asked.again && !self.retried && error.is_connection_closed() {
            drop(error);
            self.retried = true;
            self.enter(Stage::Ready);
        } else {
            self.enter(Stage::Ended(Err(error)));
        }
    }
}
