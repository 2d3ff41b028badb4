//! What a lookup was asked for, which of its orders are open, and what it was answered.
ghost use Rattle.std.specs.Prelude.{◌≡◌, IfOk};
ghost use Rattle.std.specs.List.{list_any};
ghost use Rattle.pool_lookup.specs.Asked.{has_order, answer_of};
ghost use Rattle.pool_lookup.specs.Attempts.{is_open_at};

use crate::backoff::is_order;
use crate::giving::copy_of_answer;
use crate::lookup::{Lookup, State};
use dns_core::{DnsRequest, Message, NetError, NoMemory};
use std::alloc::Global;

impl Lookup {
    /// The request that is looked up.
    pub fn request(&self) -> &DnsRequest
        ensures { result.now ≡ self.now.request }
    {
        &self.request
    }

    /// Whether the open order of an attempt has a number.
    fn has_attempt(&self, number: u64) -> bool
        ensures { result ≡ list_any (is_open_at number) self.now.attempts }
    {
        self.attempts.iter().any(|a| a.is_open_at(number))
    }

    /// Whether the order of a number is open: one of an attempt in flight, or that of its backoff.
    pub fn has_order(&self, number: u64) -> bool
        ensures { result ≡ has_order number self.now }
    {
        match &self.state {
            State::Asking => self.has_attempt(number),
            State::BackingOff { order, .. } => is_order(number, *order),
            State::Decided { .. } => false,
        }
    }

    /// A copy of its answer, once it is decided.
    pub fn answer(&self, alloc: Global) -> Result<Option<Result<Message, NetError>>, NoMemory>
        ensures { IfOk result (λ told. told ≡ answer_of self.now) }
    {
        match &self.state {
            State::Decided { answer, .. } => {
                let answer = copy_of_answer(alloc, answer)?;
                Ok(Some(answer))
            }
            _ => Ok(None),
        }
    }
}
