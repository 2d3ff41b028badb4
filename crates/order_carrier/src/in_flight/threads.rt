//! Which types of this crate may go to another thread, and be shared among threads.

use crate::in_flight::runner::{InFlight, InFlightOrder};
use dns_core::{ConnectionProvider, CrossesThreads};

impl<P: ConnectionProvider + Send + Sync> CrossesThreads for InFlight<P>
where
    P::Conn: Send + Sync,
    P::FutureConn: Send + Sync,
    P::Exchange: Send + Sync,
{}

impl CrossesThreads for InFlightOrder {}
