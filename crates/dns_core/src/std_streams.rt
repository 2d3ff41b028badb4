//! The trusted edge: a source and a sink over a reader and a writer of the system. They tell no
//! content.
ghost use Rattle.std.specs.Prelude.{◌≡◌, None};

use crate::errors::Failed;
use crate::streams::{Sink, Source};
use std::io::{Read, Write};

/// Reads from the system, as standard input. Its count of faults rises at each error.
#[derive(Drop)]
pub struct StdSource<R> {
    reader: R,
    pub faults: u64,
}

impl<R: Read> StdSource<R> {
    pub fn new(reader: R) -> Self
        ensures { result.faults ≡ 0 }
    {
        StdSource { reader, faults: 0 }
    }
}

impl<R: Read> Source for StdSource<R> {
    ghost left = { λ s. None };

    ghost faults = { λ s. s.faults };

    fn read(&mut self, out: &mut [u8]) -> Result<usize, Failed> {
        match self.reader.read(out) {
            Ok(count) => Ok(count),
            Err(_) => {
                self.faults = self.faults.saturating_add(1);
                Err(Failed)
            }
        }
    }
}

/// Writes to the system, as standard output. Its count of faults rises at each error, and where
/// nothing is taken of a piece that is not empty.
#[derive(Drop)]
pub struct StdSink<W> {
    writer: W,
    pub faults: u64,
}

impl<W: Write> StdSink<W> {
    pub fn new(writer: W) -> Self
        ensures { result.faults ≡ 0 }
    {
        StdSink { writer, faults: 0 }
    }
}

impl<W: Write> Sink for StdSink<W> {
    ghost written = { λ s. None };

    ghost faults = { λ s. s.faults };

    fn write(&mut self, piece: &[u8]) -> Result<usize, Failed> {
        match self.writer.write(piece) {
            Ok(count) if count > 0 || piece.is_empty() => Ok(count),
            _ => {
                self.faults = self.faults.saturating_add(1);
                Err(Failed)
            }
        }
    }
}
