//! Sends to one server, and what is seen of both step by step.
ghost use Rattle.std.specs.Prelude.{◌≡◌, ◌<◌, IfOk, length};
ghost use Rattle.server_core.specs.Servers.{place_of};

use crate::outcome_samples::{What, outcome, tick};
use crate::server_samples::{Reached, context, server};
use crate::sights::{Kept, Seen};
use dns_core::{DnsRequest, NameError, NoMemory};
use server_core::{ConnectionPolicy, PoolContext, ServerSend, ServerTable};
use std::alloc::Global;
use std::mem;
use std::test::Fail;
use tests_samples::{Machine, both, put_in, request, runs, seen};

/// A call on the first of two sends, or on their server. A new send takes the place of the first, or
/// both change places.
#[derive(Clone, Copy)]
pub enum Call {
    Next,
    Put(What),
    TakeEnd,
    Again { disable_udp: bool },
    Turn,
    Connections,
    Protocols,
    Choose { disable_udp: bool },
    Delay,
    Kept,
}

/// Two sends to a server, the only one of its table. Their orders have the numbers of their moments.
#[derive(Drop)]
struct Course {
    table: ServerTable,
    context: PoolContext,
    first: ServerSend,
    late: ServerSend,
    ghost first_there: { place_of first.server < length table },
    ghost late_there: { place_of late.server < length table },
}

/// The next step of a send.
fn next_of(
    alloc: Global,
    table: &mut ServerTable,
    context: &mut PoolContext,
    send: &mut ServerSend,
    now: u64,
) -> Result<Seen, NoMemory>
    requires { place_of send.old.server < length table.old }
    ensures table { length table.new ≡ length table.old }
    ensures server { send.new.server ≡ send.old.server }
{
    Ok(seen(send.next(alloc, table, context, now, tick(now))?))
}

/// Takes an outcome of the order of a send.
fn put_to(
    alloc: Global,
    table: &mut ServerTable,
    context: &mut PoolContext,
    send: &mut ServerSend,
    what: What,
    now: u64,
) -> Result<Seen, NameError>
    requires { place_of send.old.server < length table.old }
    ensures table { length table.new ≡ length table.old }
    ensures server { send.new.server ≡ send.old.server }
{
    let outcome = outcome(alloc, what, 2)?;
    Ok(Seen::Has(send.put(alloc, table, context, outcome, tick(now))?))
}

/// What is made for a course beside its table: the requests of its sends, and the context.
type Parts = ((DnsRequest, DnsRequest), PoolContext);

fn parts(alloc: Global) -> Result<Parts, NameError> {
    let requests = both(request(alloc, "a.", false), request(alloc, "a.", false));
    both(requests, context(alloc))
}

/// A table of one server.
fn table_of(alloc: Global, reached: Reached) -> Result<ServerTable, NameError>
    ensures { IfOk result (λ table. length table ≡ 1) }
{
    let server = server(alloc, reached)?;
    let mut table = ServerTable::new(alloc);
    table.add(alloc, server)?;
    Ok(table)
}

impl Course {
    fn over(alloc: Global, reached: Reached, disable_udp: bool) -> Result<Course, NameError> {
        let table = table_of(alloc, reached)?;
        Course::at(table, parts(alloc), disable_udp)
    }

    fn at(
        table: ServerTable,
        parts: Result<Parts, NameError>,
        disable_udp: bool,
    ) -> Result<Course, NameError>
        requires { length table ≡ 1 }
    {
        let policy = ConnectionPolicy { disable_udp };
        let ((first, late), context) = parts?;
        Ok(Course {
            table,
            context,
            first: ServerSend::new(1, first, policy),
            late: ServerSend::new(1, late, policy),
        })
    }

    fn begin_again(&mut self, alloc: Global, disable_udp: bool) -> Result<Seen, NameError> {
        let policy = ConnectionPolicy { disable_udp };
        let send = ServerSend::new(self.first.server, request(alloc, "a.", false)?, policy);
        put_in(&mut self.first, send);
        Ok(Seen::Nothing)
    }

    /// The number of the connection at a place, and 0 where there is none.
    fn connection(&self, place: usize) -> u64 {
        match self.table.get(self.first.server).connections().get(place) {
            Some(connection) => connection.number,
            None => 0,
        }
    }

    fn connections(&self) -> Seen {
        Seen::Connections([self.connection(0), self.connection(1), self.connection(2)])
    }

    fn protocols(&self) -> Seen {
        let mut protocols = self.table.get(self.first.server).protocols();
        Seen::Protocols(protocols.next(), protocols.next(), protocols.next())
    }

    fn choose(&self, disable_udp: bool, now: u64) -> Seen {
        let policy = ConnectionPolicy { disable_udp };
        let server = self.table.get(self.first.server);
        Seen::Chosen(
            policy.select_connection(server, &self.context, now),
            policy.select_connection_config(server, &self.context, now),
        )
    }

    /// The delay of the server, in whole microseconds.
    fn delay(&self, now: u64) -> u128 {
        self.table.get(self.first.server).decayed_srtt(now) >> 60
    }

    fn kept(&self, now: u64) -> Seen {
        match self.table.get(self.first.server).connections().get(0) {
            Some(connection) => Seen::Keeps(Kept {
                connection: connection.delay.as_micros(),
                status: connection.status,
                server: self.delay(now),
            }),
            None => Seen::Nothing,
        }
    }

    fn next(&mut self, alloc: Global, now: u64) -> Result<Seen, NameError> {
        let (table, context) = (&mut self.table, &mut self.context);
        Ok(next_of(alloc, table, context, &mut self.first, now)?)
    }

    fn put(&mut self, alloc: Global, what: What, now: u64) -> Result<Seen, NameError> {
        let (table, context) = (&mut self.table, &mut self.context);
        put_to(alloc, table, context, &mut self.first, what, now)
    }

    fn turn(&mut self) -> Seen {
        mem::swap(&mut self.first, &mut self.late);
        Seen::Nothing
    }
}

impl Machine<Call, Seen> for Course {
    fn see(&mut self, alloc: Global, call: Call, now: u64) -> Result<Seen, NameError> {
        match call {
            Call::Next => self.next(alloc, now),
            Call::Put(what) => self.put(alloc, what, now),
            Call::TakeEnd => Ok(seen(self.first.take_end())),
            Call::Again { disable_udp } => self.begin_again(alloc, disable_udp),
            Call::Turn => Ok(self.turn()),
            Call::Connections => Ok(self.connections()),
            Call::Protocols => Ok(self.protocols()),
            Call::Choose { disable_udp } => Ok(self.choose(disable_udp, now)),
            Call::Delay => Ok(Seen::Delay(self.delay(now))),
            Call::Kept => Ok(self.kept(now)),
        }
    }
}

/// At each moment a call is made on sends to a server that is reached so, of which this is to be seen.
pub fn goes(
    alloc: Global,
    reached: Reached,
    disable_udp: bool,
    steps: &[(u64, Call, Seen)],
) -> Result<(), Fail> {
    runs(alloc, Course::over(alloc, reached, disable_udp), steps)
}
