//! What is seen of values and of calls, and how it is compared.
ghost use Rattle.std.specs.Prelude.{◌≡◌};

use dns_core::{Items, NameError};
use std::alloc::Global;
use std::fmt::Debug;
use std::test::Fail;

/// What is seen of a value.
pub trait Sight<S: Copy>: Drop {
    fn sight(&self) -> S;
}

/// What is seen of a value that is not used again.
pub fn seen<S: Copy, T: Sight<S>>(value: T) -> S {
    value.sight()
}

/// Two values, where both were made.
pub fn both<A: Drop, B: Drop, E: Drop>(
    left: Result<A, E>,
    right: Result<B, E>,
) -> Result<(A, B), E> {
    let left = left?;
    let right = right?;
    Ok((left, right))
}

/// A value takes the place of another.
pub fn put_in<T: Drop>(place: &mut T, value: T)
    ensures { place.new ≡ value }
{
    *place = value;
}

/// Adds a value to a list, as it was made or not made.
pub fn put<T: Drop>(to: &mut Items<T>, made: Result<T, NameError>) -> Result<(), NameError> {
    let value = made?;
    to.push(value)?;
    Ok(())
}

/// A text of bytes for a message of a test.
pub fn shown(bytes: &[u8]) -> &str {
    std::str::from_utf8(bytes).unwrap_or("no text")
}

/// What was found is what is wanted.
pub fn is_wanted<T: Debug + PartialEq + Drop>(found: T, wanted: T) -> Result<(), Fail> {
    if found == wanted {
        return Ok(());
    }
    Err(Fail::new(format_args!("{found:?} in place of {wanted:?}")))
}

/// The same of what is handed over as it was found or not found.
pub fn comes_to<T: Debug + PartialEq + Drop, E: Debug + Drop>(
    found: Result<T, E>,
    wanted: T,
) -> Result<(), Fail> {
    is_wanted(found?, wanted)
}

/// What calls are made on, each at a moment, of which something is seen.
pub trait Machine<C: Copy, S: Copy + Debug + PartialEq>: Drop {
    fn see(&mut self, alloc: Global, call: C, now: u64) -> Result<S, NameError>;
}

fn is_seen<S: Copy + Debug + PartialEq>(now: u64, found: S, wanted: S) -> Result<(), Fail> {
    if found == wanted {
        return Ok(());
    }
    Err(Fail::new(format_args!("at {now}: {found:?} in place of {wanted:?}")))
}

fn goes<C: Copy, S: Copy + Debug + PartialEq, M: Machine<C, S>>(
    alloc: Global,
    machine: &mut M,
    steps: &[(u64, C, S)],
) -> Result<(), Fail> {
    for (now, call, wanted) in steps {
        let found = machine.see(alloc, *call, *now)?;
        is_seen(*now, found, *wanted)?;
    }
    Ok(())
}

/// At each moment a call is made, of which this is to be seen.
pub fn runs<C: Copy, S: Copy + Debug + PartialEq, M: Machine<C, S>, E: Debug + Drop>(
    alloc: Global,
    machine: Result<M, E>,
    steps: &[(u64, C, S)],
) -> Result<(), Fail> {
    let mut machine = machine?;
    goes(alloc, &mut machine, steps)
}
