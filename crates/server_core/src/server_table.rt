//! The servers of a resolver, each under a number.
ghost use Rattle.std.specs.Prelude.{◌≡◌, ◌<◌, ◌+◌, nat_lt, ◌++◌, ◌∷◌, [], Some, length, IfOk, OnOk, OnErr};
ghost use Rattle.std.specs.Borrow.{sem};
ghost use Rattle.server_core.specs.Lending.{LendsServer};
ghost use Rattle.server_core.specs.Servers.{place_of, server_of};
ghost use Rattle.server_core.specs.Hearing.{after_heard, without_dead, with_opened, changed_at};

use crate::heard::Heard;
use crate::name_server::NameServer;
use crate::status::Status;
use dns_core::{NoMemory, Protocol, TryClone, try_clone_all};
use std::alloc::Global;
use std::marker::Model;

/// Servers, numbered from 1 in the order in which they were added.
#[derive(Debug)]
pub struct ServerTable {
    servers: Vec<NameServer>,
}

impl Drop for ServerTable {
    fn drop(self) {
        let ServerTable { servers: _ } = self;
    }
}

impl Model for ServerTable {
    ghost use Rattle.std.specs.Prelude.{List};
    ghost use Rattle.server_core.specs.Servers.{Server};

    ghost Value = { List Server };

    ghost view = { λ a. a.servers.items };
}

fn place_of(number: u32) -> usize
    ensures { result ≡ place_of number }
{
    if number == 0 {
        u32::MAX as usize
    } else {
        number as usize - 1
    }
}

impl ServerTable {
    /// The table without servers. It takes no memory.
    pub fn new(alloc: Global) -> Self
        ensures { result ≡ [] }
    {
        ServerTable {
            servers: Vec::new(alloc),
        }
    }

    /// Adds a server. Its number is the count of servers, from 1 on.
    pub fn add(&mut self, _alloc: Global, server: NameServer) -> Result<u32, NoMemory>
        ensures number { IfOk result (λ number. number ≡ length self.old + 1) }
        ensures ok { OnOk result (self.new ≡ self.old ++ server ∷ []) }
        ensures err { OnErr result (self.new ≡ self.old) }
    {
        let count = self.servers.len();
        if count >= u32::MAX as usize {
            return Err(NoMemory);
        }
        self.servers.push(server)?;
        Ok(count as u32 + 1)
    }

    /// How many servers it has: their numbers are those from 1 to it.
    pub fn len(&self) -> usize
        ensures { result ≡ length self.now }
    {
        self.servers.len()
    }

    /// Whether it has a server of a number.
    pub fn is_live(&self, number: u32) -> bool
        ensures { result ≡ nat_lt (place_of number) (length self.now) }
    {
        place_of(number) < self.servers.len()
    }

    /// The server of a number.
    pub fn get(&self, number: u32) -> &NameServer
        requires { place_of number < length self.now }
        ensures { server_of self.now number ≡ Some result.now }
    {
        &self.servers[place_of(number)]
    }

    /// The server of a number, to be changed: the others stay.
    pub fn get_mut(&mut self, number: u32) -> &mut NameServer
        requires { place_of number < length self.old }
        ensures* writes_back { sem 𝓛 (LendsServer self.entry number result) }
        ensures value { server_of self.old number ≡ Some result.now }
    {
        &mut self.servers[place_of(number)]
    }

    /// Drops the connections of a server that failed.
    pub fn drop_dead(&mut self, server: u32)
        requires { place_of server < length self.old }
        ensures { self.new ≡ changed_at without_dead server self.old }
    {
        self.get_mut(server).drop_dead();
    }

    /// Keeps the connection to a server that the order of a number opened.
    pub fn keep_opened(
        &mut self,
        server: u32,
        number: u64,
        protocol: Protocol,
    ) -> Result<(), NoMemory>
        requires { place_of server < length self.old }
        ensures ok { OnOk result (self.new ≡ changed_at (with_opened number protocol) server self.old) }
        ensures err { OnErr result (self.new ≡ self.old) }
    {
        self.get_mut(server).keep_opened(number, protocol)
    }

    /// Takes in what was heard over a connection of a server.
    pub fn hear(&mut self, server: u32, number: u64, status: Status, heard: Heard, now: u64)
        requires { place_of server < length self.old }
        ensures { self.new ≡ changed_at (after_heard number status heard now) server self.old }
    {
        self.get_mut(server).hear(number, status, heard, now);
    }
}

impl TryClone for ServerTable {
    fn try_clone(&self, alloc: Global) -> Result<Self, NoMemory> {
        let servers = try_clone_all(alloc, &self.servers)?;
        Ok(ServerTable { servers })
    }
}
