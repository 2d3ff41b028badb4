//! Which types of this crate may go to another thread, and be shared among threads.

use crate::delays::DecayingSrtt;
use crate::heard::Heard;
use crate::name_server::{Connection, NameServer};
use crate::protocols::Protocols;
use crate::server_table::ServerTable;
use crate::status::Status;
use dns_core::CrossesThreads;

impl CrossesThreads for DecayingSrtt {}

impl CrossesThreads for Status {}

impl CrossesThreads for Heard {}

impl CrossesThreads for Connection {}

impl CrossesThreads for NameServer {}

impl CrossesThreads for Protocols<'_> {}

impl CrossesThreads for ServerTable {}
