//! A transport of one's own. A real one opens sockets; here every server is one host, which answers at
//! once, and knows one address.
ghost use Rattle.std.specs.Prelude.{◌≡◌, ℕ, None, not, IfOk, IsTrue};
ghost use Rattle.dns_core.specs.Message.{is_qualified_message};

use dns_core::{
    ConnectOptions, ConnectionConfig, ConnectionProvider, DnsRequest, Items, Message, NetError,
    NoMemory, Poll, Protocol, Query, RData, Record, RecordType, ResponseCode, TryClone,
};
use std::alloc::Global;
use std::net::{IpAddr, Ipv4Addr};

/// The host, and the address that it knows.
#[derive(Drop)]
pub struct OneHost {
    pub alloc: Global,
    pub address: Ipv4Addr,
}

/// A connection: whom it reaches, and how.
#[derive(Clone, Copy)]
pub struct Line {
    ip: IpAddr,
    protocol: Protocol,
}

#[derive(Drop)]
pub struct Opening {
    line: Line,
    is_ready: bool,
}

#[derive(Drop)]
pub struct Exchange {
    query: Query,
    is_ready: bool,
}

impl OneHost {
    /// What the host answers: its address to a question for one, and else that there are no records.
    fn answer(&self, query: &Query) -> Result<Message, NoMemory>
        ensures { IfOk result (λ m. (m.query ≡ query.now) × IsTrue (is_qualified_message m)) }
    {
        let mut answers = Items::empty(self.alloc);
        if query.query_type == RecordType::A && query.name.is_fqdn() {
            answers.push(Record {
                name: query.name.try_clone(self.alloc)?,
                ttl: 300,
                dns_class: query.query_class,
                record_type: RecordType::A,
                rdata: RData::A(self.address),
            })?;
        }
        Ok(Message {
            query: query.try_clone(self.alloc)?,
            response_code: ResponseCode { code: 0 },
            authoritative: true,
            truncation: false,
            answers,
            authorities: Items::empty(self.alloc),
            additionals: Items::empty(self.alloc),
        })
    }
}

impl ConnectionProvider for OneHost {
    type Conn = Line;

    type FutureConn = Opening;

    type Exchange = Exchange;

    // It tells no log, fails at nothing, and answers each poll.
    ghost log = { λ s. None };

    ghost faults = { λ s. 0 };

    ghost pendings = { λ s. 0 };

    ghost vouches = { λ s es. Unit {0} };

    ghost peer = { λ c. record { ip = c.ip; protocol = c.protocol } };

    ghost opened = { λ f. 0 };

    ghost opening = { λ f. record { ip = f.line.ip; protocol = f.line.protocol } };

    ghost opens = { λ f. not f.is_ready };

    ghost asked = { λ e. 0 };

    ghost question = { λ e. e.query };

    ghost waits = { λ e. not e.is_ready };

    fn new_connection(
        &mut self,
        ip: IpAddr,
        config: &ConnectionConfig,
        _cx: &ConnectOptions,
        _now: u64,
    ) -> Result<Opening, NetError> {
        let line = Line {
            ip,
            protocol: config.protocol.to_protocol(),
        };
        Ok(Opening {
            line,
            is_ready: false,
        })
    }

    fn poll_connection(&mut self, f: &mut Opening, _now: u64) -> Poll<Result<Line, NetError>> {
        f.is_ready = true;
        Poll::Ready(Ok(f.line))
    }

    fn give_up_connection(&mut self, _f: Opening, _now: u64) {}

    fn send(&mut self, _conn: Line, request: &DnsRequest, _now: u64) -> Result<Exchange, NetError> {
        match request.query.try_clone(self.alloc) {
            Ok(query) => Ok(Exchange {
                query,
                is_ready: false,
            }),
            Err(_) => Err(NetError::NoMemory),
        }
    }

    fn poll_exchange(&mut self, e: &mut Exchange, _now: u64) -> Poll<Result<Message, NetError>> {
        match self.answer(&e.query) {
            Ok(message) => {
                e.is_ready = true;
                Poll::Ready(Ok(message))
            }
            Err(_) => Poll::Ready(Err(NetError::NoMemory)),
        }
    }

    fn give_up(&mut self, _e: Exchange, _now: u64) {}
}
