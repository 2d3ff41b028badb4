//! Names, records, messages and errors of DNS, and the traits of the outside: a provider of
//! connections, a source and a sink of bytes. Everything else stands on this crate.
//!
//! A contract sees each type as its value: a list type as the list, a name as its labels.
#![tactic(auto)]

mod boxed;
mod classifying;
mod code_text;
mod codes;
mod connection;
mod copies;
mod error_text;
mod errors;
mod items;
mod label;
mod log;
mod memory_streams;
mod message;
mod name;
mod name_laws;
mod name_text;
mod net_error;
mod provider;
mod record;
mod request;
mod std_streams;
mod streams;
mod stripping;
mod threads;
mod whole_streams;

pub use boxed::{Boxed, in_box};
pub use classifying::classify;
pub use codes::{DnsClass, RecordType, ResponseCode};
pub use connection::{ConnectOptions, ConnectionConfig, Protocol, ProtocolConfig};
pub use copies::{TryClone, try_clone_all};
pub use errors::{Failed, NoMemory};
pub use items::{Bytes, Delays, Ips, Items, Names, Numbers, Ports, Text};
pub use label::{Label, Letter};
pub use log::{Log, LogEntry, ToldOutcome};
pub use memory_streams::{MemorySink, MemorySource};
pub use message::{Message, Query};
pub use name::{Name, is_subzone};
pub use name_laws::{
    a_read_name_keeps_its_text, equality_order_and_hash_of_names_agree, lying_in_a_zone_is_an_order,
};
pub use name_text::NameError;
pub use net_error::{DnsError, ForwardNsData, IoKind, NetError, NoRecords};
pub use provider::{ConnectionProvider, Poll};
pub use record::{RData, Record, Records, Soa};
pub use request::{DnsRequest, DnsRequestOptions, Question, Turn};
pub use std_streams::{StdSink, StdSource};
pub use streams::{Sink, Source};
pub use stripping::strip;
pub use threads::CrossesThreads;
pub use whole_streams::{ReadError, read_all, write_all};
