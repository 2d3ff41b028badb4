//! Which types of this crate may go to another thread, and be shared among threads.

use crate::carrier::Carrier;
use dns_core::{ConnectionProvider, CrossesThreads};

impl<P: ConnectionProvider + Send + Sync> CrossesThreads for Carrier<P>
where
    P::Conn: Send + Sync,
    P::FutureConn: Send + Sync,
    P::Exchange: Send + Sync,
{}
