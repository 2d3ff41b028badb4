//! Which types of this crate may go to another thread, and be shared among threads.

use crate::sends::context::PoolContext;
use crate::sends::policy::ConnectionPolicy;
use crate::sends::server_send::{Asked, SendStep, ServerSend, Stage};
use dns_core::CrossesThreads;

impl CrossesThreads for ConnectionPolicy {}

impl CrossesThreads for PoolContext {}

impl CrossesThreads for Asked {}

impl CrossesThreads for Stage {}

impl CrossesThreads for SendStep {}

impl CrossesThreads for ServerSend {}
