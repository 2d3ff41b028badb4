//! The outside that answers questions, if it likes.
ghost use Rattle.std.specs.Prelude.{◌≡◌, ℕ, Bool, List, Option, IfOk, IsTrue};
ghost use Rattle.dns_core.specs.declared.log.LogEntry.{LogEntry};
ghost use Rattle.dns_core.specs.declared.message.Query.{Query};
ghost use Rattle.dns_core.specs.Connection.{Peer, protocol_of};
ghost use Rattle.dns_core.specs.Log.{after_open, after_send, after_connect_poll, after_poll, gave_up, Numbered};
ghost use Rattle.dns_core.specs.Provider.{Faulted, PollFaulted, Pended, Stays, OnReady, ReadyIs, IsPlain, TellsFor};

use crate::connection::{ConnectOptions, ConnectionConfig};
use crate::message::Message;
use crate::net_error::NetError;
use crate::request::DnsRequest;
use std::net::IpAddr;

/// What a poll answers.
#[derive(Debug, Drop)]
pub enum Poll<T> {
    Ready(T),
    Pending,
}

/// Opens connections and carries questions over them. Nothing waits: each call answers at once, and
/// what is not there yet is polled again. Moments are in microseconds.
///
/// Each call appends one entry to the log, or answers out of memory and appends none; a give-up
/// always appends, in room that was taken when its connection or exchange began.
pub trait ConnectionProvider: Drop {
    type Conn: Copy;

    type FutureConn: Drop;

    type Exchange: Drop;

    /// The log, where the provider tells one.
    ghost log: { Self → Option (List LogEntry) };

    /// How many calls failed, and how many polls found nothing yet.
    ghost faults: { Self → ℕ };

    ghost pendings: { Self → ℕ };

    /// What the provider promises of every log that it tells. No call promises less.
    ghost vouches: { Self → List LogEntry → Type 0 };

    /// Whom a connection reaches.
    ghost peer: { Self.Conn → Peer };

    /// The number of the entry that opened it, whom it is to reach, and whether it may be polled.
    ghost opened: { Self.FutureConn → ℕ };

    ghost opening: { Self.FutureConn → Peer };

    ghost opens: { Self.FutureConn → Bool };

    /// The number of the entry that asked, what was asked, and whether it may be polled.
    ghost asked: { Self.Exchange → ℕ };

    ghost question: { Self.Exchange → Query };

    ghost waits: { Self.Exchange → Bool };

    fn new_connection(
        &mut self,
        ip: IpAddr,
        config: &ConnectionConfig,
        cx: &ConnectOptions,
        now: u64,
    ) -> Result<Self::FutureConn, NetError>
        ensures log { log self.new ≡ after_open (record { ip = ip; protocol = protocol_of config.now.protocol }) now result (log self.old) }
        ensures ok { IfOk result (λ f. Numbered (opened f) (log self.old) × (opening f ≡ record { ip = ip; protocol = protocol_of config.now.protocol }) × IsTrue (opens f)) }
        ensures plain { IsPlain result }
        ensures faults { Faulted (faults self.old) (faults self.new) result }
        ensures pendings { pendings self.new ≡ pendings self.old }
        ensures vouches { (es : List LogEntry) → vouches self.new es → vouches self.old es };

    fn poll_connection(
        &mut self,
        f: &mut Self::FutureConn,
        now: u64,
    ) -> Poll<Result<Self::Conn, NetError>>
        requires { IsTrue (opens f.old) }
        ensures log { log self.new ≡ after_connect_poll (opened f.old) now result (log self.old) }
        ensures same { (opened f.new ≡ opened f.old) × (opening f.new ≡ opening f.old) }
        ensures stays { Stays result (IsTrue (opens f.new)) }
        ensures peer { ReadyIs (λ conn. peer conn ≡ opening f.old) result }
        ensures plain { OnReady IsPlain result }
        ensures faults { PollFaulted (faults self.old) (faults self.new) result }
        ensures pendings { Pended (pendings self.old) (pendings self.new) result }
        ensures vouches { (es : List LogEntry) → vouches self.new es → vouches self.old es };

    fn give_up_connection(&mut self, f: Self::FutureConn, now: u64)
        ensures log { log self.new ≡ gave_up (opened f) now (log self.old) }
        ensures faults { faults self.new ≡ faults self.old }
        ensures pendings { pendings self.new ≡ pendings self.old }
        ensures vouches { (es : List LogEntry) → vouches self.new es → vouches self.old es };

    fn send(
        &mut self,
        conn: Self::Conn,
        request: &DnsRequest,
        now: u64,
    ) -> Result<Self::Exchange, NetError>
        ensures log { log self.new ≡ after_send (peer conn) request.now.query now result (log self.old) }
        ensures ok { IfOk result (λ e. Numbered (asked e) (log self.old) × (question e ≡ request.now.query) × IsTrue (waits e)) }
        ensures plain { IsPlain result }
        ensures faults { Faulted (faults self.old) (faults self.new) result }
        ensures pendings { pendings self.new ≡ pendings self.old }
        ensures vouches { (es : List LogEntry) → vouches self.new es → vouches self.old es };

    fn poll_exchange(&mut self, e: &mut Self::Exchange, now: u64) -> Poll<Result<Message, NetError>>
        requires { IsTrue (waits e.old) }
        ensures log { log self.new ≡ after_poll (asked e.old) now result (log self.old) }
        ensures same { (asked e.new ≡ asked e.old) × (question e.new ≡ question e.old) }
        ensures stays { Stays result (IsTrue (waits e.new)) }
        ensures told { OnReady (TellsFor (question e.old)) result }
        ensures faults { PollFaulted (faults self.old) (faults self.new) result }
        ensures pendings { Pended (pendings self.old) (pendings self.new) result }
        ensures vouches { (es : List LogEntry) → vouches self.new es → vouches self.old es };

    fn give_up(&mut self, e: Self::Exchange, now: u64)
        ensures log { log self.new ≡ gave_up (asked e) now (log self.old) }
        ensures faults { faults self.new ≡ faults self.old }
        ensures pendings { pendings self.new ≡ pendings self.old }
        ensures vouches { (es : List LogEntry) → vouches self.new es → vouches self.old es };
}
