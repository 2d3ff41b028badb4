//! Reading all of a source, and writing all of a text.
ghost use Rattle.std.specs.Prelude.{◌≡◌, ◌≤◌, Err, IfOk, OnOk, OnErr};
ghost use Rattle.std.specs.Io.KnownBytes.{Appends};
ghost use Rattle.dns_core.specs.Faults.{Rose, HasCause};
ghost use Rattle.dns_core.specs.WholeStreams.{HeldAll, TakesPart, TakesAtMost, TakesFewer, AppendsPart};

use crate::errors::Failed;
use crate::streams::{Sink, Source};
use std::alloc::{AllocError, Global};
use std::error::Error;
use std::fmt;

/// Why a source was not read to its end.
#[derive(Clone, Copy, Debug, PartialEq, Eq)]
pub enum ReadError {
    Failed,
    NoMemory,
}

impl fmt::Display for ReadError {
    ghost use Rattle.std.specs.Prelude.{Some};
    ghost use Rattle.dns_core.specs.ErrorTexts.{read_error_text};

    ghost output = { λ e. Some (read_error_text e) };

    fn fmt<W: fmt::Write>(&self, f: &mut fmt::Formatter<W>) -> fmt::Result {
        match self {
            ReadError::Failed => f.write_str("the source failed"),
            ReadError::NoMemory => f.write_str("out of memory"),
        }
    }
}

impl Error for ReadError {}

impl From<AllocError> for ReadError {
    ghost use Rattle.std.specs.Prelude.{◌≡◌};
    ghost use Rattle.dns_core.specs.declared.whole_streams.ReadError.TheVariants.{NoMemory};

    ghost from_gives = { λ _ e. e ≡ NoMemory };

    fn from(_e: AllocError) -> ReadError {
        ReadError::NoMemory
    }
}

/// Reads all that a source holds, up to `most` bytes. It never takes more of them, and it asks for no
/// more once it has taken so many.
pub fn read_all<S: Source>(alloc: Global, source: &mut S, most: usize) -> Result<Vec<u8>, ReadError>
    ensures held { IfOk result (λ bytes. HeldAll (S.left source.old) (S.left source.new) bytes.items most) }
    ensures part { OnErr result (TakesPart (S.left source.old) (S.left source.new)) }
    ensures bound { TakesAtMost most (S.left source.old) (S.left source.new) }
    ensures room { result ≡ Err ReadError.Failed → TakesFewer most (S.left source.old) (S.left source.new) }
    ensures fault { result ≡ Err ReadError.Failed → Rose (S.faults source.old) (S.faults source.new) }
    ensures later { S.faults source.old ≤ S.faults source.new }
{
    let mut bytes = Vec::new(alloc);
    let mut piece = [0u8; 4096];
    'turns: while bytes.len() < most {
        let room = (most - bytes.len()).min(4096);
        match source.read(&mut piece[..room]) {
            Err(_) => return Err(ReadError::Failed),
            Ok(0) => return Ok(bytes),
            Ok(count) => bytes.extend_from_slice(&piece[..count])?,
        }
    }
    Ok(bytes)
}

/// Writes all of a text. Where the sink fails, a front of the text was written.
pub fn write_all<K: Sink>(sink: &mut K, text: &[u8]) -> Result<(), Failed>
    ensures ok { OnOk result (Appends (K.written sink.old) (K.written sink.new) text.now) }
    ensures part { OnErr result (AppendsPart (K.written sink.old) (K.written sink.new) text.now) }
    ensures cause { HasCause (K.faults sink.old) (K.faults sink.new) result }
{
    let mut rest = text;
    'turns: while !rest.is_empty() {
        let count = sink.write(rest)?;
        rest = &rest[count..];
    }
    Ok(())
}
