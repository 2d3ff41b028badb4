//! Copies of connections, which may want memory.

use crate::name_server::Connection;
use dns_core::{NoMemory, TryClone};
use std::alloc::Global;

impl TryClone for Connection {
    fn try_clone(&self, _alloc: Global) -> Result<Self, NoMemory> {
        Ok(Connection {
            number: self.number,
            protocol: self.protocol,
            status: self.status,
            delay: self.delay,
        })
    }
}
