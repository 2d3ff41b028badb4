//! Which types may go to another thread, and be shared among threads. Of each public type that holds values
//! its crate says so, where its parameters may.

use crate::boxed::Boxed;
use crate::codes::{DnsClass, RecordType, ResponseCode};
use crate::connection::{ConnectOptions, ConnectionConfig, Protocol, ProtocolConfig};
use crate::errors::{Failed, NoMemory};
use crate::items::{Items, Text};
use crate::label::{Label, Letter};
use crate::log::{LogEntry, ToldOutcome};
use crate::memory_streams::{MemorySink, MemorySource};
use crate::message::{Message, Query};
use crate::name::Name;
use crate::name_text::NameError;
use crate::net_error::{DnsError, ForwardNsData, IoKind, NetError, NoRecords};
use crate::provider::Poll;
use crate::record::{RData, Record, Soa};
use crate::request::{DnsRequest, DnsRequestOptions, Question, Turn};
use crate::std_streams::{StdSink, StdSource};
use crate::whole_streams::ReadError;

/// What may go to another thread, and be shared among threads.
pub trait CrossesThreads: Send + Sync {}

impl CrossesThreads for Name {}

impl CrossesThreads for Label {}

impl CrossesThreads for Letter {}

impl CrossesThreads for Text {}

impl CrossesThreads for RecordType {}

impl CrossesThreads for DnsClass {}

impl CrossesThreads for ResponseCode {}

impl CrossesThreads for RData {}

impl CrossesThreads for Soa {}

impl CrossesThreads for Record {}

impl CrossesThreads for Query {}

impl CrossesThreads for Message {}

impl CrossesThreads for DnsRequestOptions {}

impl CrossesThreads for DnsRequest {}

impl CrossesThreads for Question {}

impl CrossesThreads for Turn {}

impl CrossesThreads for Protocol {}

impl CrossesThreads for ProtocolConfig {}

impl CrossesThreads for ConnectionConfig {}

impl CrossesThreads for ConnectOptions {}

impl CrossesThreads for ToldOutcome {}

impl CrossesThreads for LogEntry {}

impl CrossesThreads for IoKind {}

impl CrossesThreads for ForwardNsData {}

impl CrossesThreads for NoRecords {}

impl CrossesThreads for DnsError {}

impl CrossesThreads for NetError {}

impl CrossesThreads for NameError {}

impl CrossesThreads for ReadError {}

impl CrossesThreads for NoMemory {}

impl CrossesThreads for Failed {}

impl CrossesThreads for MemorySource {}

impl CrossesThreads for MemorySink {}

impl<T: Send + Sync> CrossesThreads for Items<T> {}

impl<T: Send + Sync> CrossesThreads for Boxed<T> {}

impl<T: Send + Sync> CrossesThreads for Poll<T> {}

impl<S: Send + Sync> CrossesThreads for StdSource<S> {}

impl<S: Send + Sync> CrossesThreads for StdSink<S> {}
