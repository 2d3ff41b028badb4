//! A source and a sink in memory, which tell their content and fail where they are told to.
ghost use Rattle.std.specs.Prelude.{◌≡◌, ◌↔◌, ◌<◌, ◌++◌, [], Some, IfOk, IsErr, IsTrue, length, take, min, if◌then◌else◌};
ghost use Rattle.std.specs.Io.{ReadsAtMost, WritesAtMost};
ghost use Rattle.std.specs.Io.KnownBytes.{ReadConsumes, WriteAppends};
ghost use Rattle.dns_core.specs.Faults.{HasCause};
ghost use Rattle.dns_core.specs.MemoryStreams.{contains_number, next_call};

use crate::copies::{TryClone, try_clone_all};
use crate::errors::{Failed, NoMemory};
use crate::items::{Bytes, Numbers};
use crate::streams::{Sink, Source};
use std::alloc::Global;
use std::marker::Model;

/// Reads bytes that it holds.
#[derive(Drop, Debug)]
pub struct MemorySource {
    bytes: Bytes,
    at: usize,
    failing: Numbers,
    calls: u64,
    faults: u64,
}

impl Model for MemorySource {
    ghost use Rattle.std.specs.Prelude.{◌≤◌, drop, length};
    ghost use Rattle.dns_core.specs.MemoryStreams.{Reading};

    ghost Value = { Reading };

    ghost view = { λ s. record { left = drop s.at s.bytes; failing = s.failing; calls = s.calls; faults = s.faults } };

    ghost invariant = { λ s. s.at ≤ length s.bytes };
}

impl MemorySource {
    /// Reads these bytes. The calls of these numbers, from 1, fail.
    pub fn new(_alloc: Global, bytes: Bytes, failing: Numbers) -> Self
        ensures { result ≡ record { left = bytes; failing = failing; calls = 0; faults = 0 } }
    {
        MemorySource {
            bytes,
            at: 0,
            failing,
            calls: 0,
            faults: 0,
        }
    }

    pub(crate) fn copied(&self, alloc: Global) -> Result<Self, NoMemory>
        ensures { IfOk result (λ copy. copy ≡ self.now) }
    {
        let bytes = self.bytes.try_clone(alloc)?;
        let failing = self.failing.try_clone(alloc)?;
        Ok(MemorySource {
            bytes,
            at: self.at,
            failing,
            calls: self.calls,
            faults: self.faults,
        })
    }
}

fn is_among(numbers: &Numbers, number: u64) -> bool
    ensures { result ≡ contains_number numbers.now number }
{
    numbers.items().contains(&number)
}

/// Copies what fits from the front, and answers how many bytes.
fn copy_front(from: &[u8], out: &mut [u8]) -> usize
    ensures count { result ≡ min (length from.now) (length out.new) }
    ensures front { take result out.new ≡ take result from.now }
{
    let count = from.len().min(out.len());
    let (to, _) = out.split_at_mut(count);
    to.copy_from_slice(&from[..count]);
    count
}

impl Source for MemorySource {
    ghost left = { λ s. Some s.left };

    ghost faults = { λ s. s.faults };

    fn read(&mut self, out: &mut [u8]) -> Result<usize, Failed>
        ensures bound { ReadsAtMost result out.new }
        ensures bytes { ReadConsumes (Some self.old.left) (Some self.new.left) result out.new }
        ensures cause { HasCause self.old.faults self.new.faults result }

        // It fails where it is told to, and else gives all that fits.
        ensures fails { IsErr result ↔ IsTrue (contains_number self.old.failing (next_call self.old.calls)) }
        ensures all { IfOk result (λ n. n ≡ min (length self.old.left) (length out.new)) }
    {
        self.calls = self.calls.saturating_add(1);
        if is_among(&self.failing, self.calls) {
            self.faults = self.faults.saturating_add(1);
            return Err(Failed);
        }
        let count = copy_front(&self.bytes.items()[self.at..], out);
        self.at += count;
        Ok(count)
    }
}

/// Keeps the bytes that it is given.
#[derive(Drop, Debug)]
pub struct MemorySink {
    bytes: Vec<u8>,
    failing: Numbers,
    calls: u64,
    faults: u64,
}

impl Model for MemorySink {
    ghost use Rattle.dns_core.specs.MemoryStreams.{Writing};

    ghost Value = { Writing };

    ghost view = { λ s. record { written = s.bytes.items; failing = s.failing; calls = s.calls; faults = s.faults } };
}

impl MemorySink {
    /// Starts with nothing written. The calls of these numbers, from 1, fail.
    pub fn new(alloc: Global, failing: Numbers) -> Self
        ensures { result ≡ record { written = []; failing = failing; calls = 0; faults = 0 } }
    {
        MemorySink {
            bytes: Vec::new(alloc),
            failing,
            calls: 0,
            faults: 0,
        }
    }

    /// What the sink took.
    pub fn written(&self) -> &[u8]
        ensures { result.now ≡ self.now.written }
    {
        self.bytes.as_slice()
    }

    pub(crate) fn copied(&self, alloc: Global) -> Result<Self, NoMemory>
        ensures { IfOk result (λ copy. copy ≡ self.now) }
    {
        let bytes = try_clone_all(alloc, self.bytes.as_slice())?;
        let failing = self.failing.try_clone(alloc)?;
        Ok(MemorySink {
            bytes,
            failing,
            calls: self.calls,
            faults: self.faults,
        })
    }

    fn take(&mut self, piece: &[u8]) -> bool
        ensures { self.new ≡ (if result then record self.old { written = self.old.written ++ piece.now } else self.old) }
    {
        self.bytes.extend_from_slice(piece).is_ok()
    }
}

impl Sink for MemorySink {
    ghost written = { λ s. Some s.written };

    ghost faults = { λ s. s.faults };

    fn write(&mut self, piece: &[u8]) -> Result<usize, Failed>
        ensures bound { WritesAtMost result piece.now }
        ensures progress { IfOk result (λ n. 0 < length piece.now → 0 < n) }
        ensures bytes { WriteAppends (Some self.old.written) (Some self.new.written) result piece.now }
        ensures cause { HasCause self.old.faults self.new.faults result }

        // It fails where it is told to, or memory runs out, and else takes all.
        ensures fails { IsTrue (contains_number self.old.failing (next_call self.old.calls)) → IsErr result }
        ensures all { IfOk result (λ n. n ≡ length piece.now) }
    {
        self.calls = self.calls.saturating_add(1);
        if is_among(&self.failing, self.calls) || !self.take(piece) {
            self.faults = self.faults.saturating_add(1);
            return Err(Failed);
        }
        Ok(piece.len())
    }
}
