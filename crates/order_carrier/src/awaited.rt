//! What an order waits for.

use server_core::SentBy;

/// A connection that opens, the answer to a question, or a moment. The first two were sent by an entry
/// of the log.
#[derive(Drop)]
pub enum Awaited<F, E> {
    Connection { future: F, sent: SentBy },
    Answer { exchange: E, sent: SentBy },
    Moment { until: u64 },
}
