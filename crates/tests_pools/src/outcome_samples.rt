//! Outcomes of orders, and the moments at which they come.

use dns_core::{IoKind, Message, NameError, NetError, Records, ResponseCode};
use server_core::{Outcome, SentBy, Tick};
use std::alloc::Global;
use tests_samples::{ip, message, query, response};

/// What comes of an order: beside an answer, one that is cut, a cut message without records, one without
/// records, and one with a code.
#[derive(Clone, Copy)]
pub enum What {
    Pending,
    Connected,
    Slept,
    Answer,
    Cut,
    CutEmpty,
    Empty,
    Code(u16),
    Busy,
    Closed,
    Refused,
    Timeout,
    Mismatch,
}

/// An order may be pending three times.
pub fn tick(now: u64) -> Tick {
    Tick { now, patience: 3 }
}

fn sent() -> SentBy {
    SentBy {
        of: 1,
        ip: ip(1),
        moment: 0,
        query: None,
    }
}

fn failed(entry: u64, error: NetError) -> Outcome {
    Outcome::Failed {
        entry,
        sent: sent(),
        refused: false,
        error,
    }
}

/// A message is told, as it was made or not made.
fn told(entry: u64, made: Result<Message, NameError>) -> Result<Outcome, NameError> {
    let message = made?;
    Ok(Outcome::Told {
        entry,
        sent: sent(),
        message,
    })
}

/// A response for `a.` with a code and no records.
fn empty(alloc: Global, code: u16, truncation: bool) -> Result<Message, NameError> {
    let query = query(alloc, "a.")?;
    let (answers, authorities) = (Records::empty(alloc), Records::empty(alloc));
    let code = ResponseCode { code };
    let mut message = response(query, code, answers, authorities, Records::empty(alloc));
    message.truncation = truncation;
    Ok(message)
}

/// What comes of an order by this log entry.
pub fn outcome(alloc: Global, what: What, entry: u64) -> Result<Outcome, NameError> {
    match what {
        What::Pending => Ok(Outcome::Pending { entry, of: 1 }),
        What::Connected => Ok(Outcome::Connected {
            entry,
            sent: sent(),
        }),
        What::Slept => Ok(Outcome::Slept),
        What::Answer => told(entry, message(alloc, false)),
        What::Cut => told(entry, message(alloc, true)),
        What::CutEmpty => told(entry, empty(alloc, 0, true)),
        What::Empty => told(entry, empty(alloc, 0, false)),
        What::Code(code) => told(entry, empty(alloc, code, false)),
        What::Busy => Ok(failed(entry, NetError::Busy)),
        What::Closed => Ok(failed(entry, NetError::Io(IoKind::Closed))),
        What::Refused => Ok(failed(entry, NetError::Io(IoKind::Refused))),
        What::Timeout => Ok(failed(entry, NetError::Timeout)),
        What::Mismatch => Ok(failed(entry, NetError::QueryCaseMismatch)),
    }
}
