//! Faults that end a run, and their texts.
ghost use Rattle.std.specs.Prelude.{◌≡◌, ◌≢◌, IfOk};
ghost use Rattle.recursor_command.specs.Status.{Wrote};
ghost use Rattle.recursor_command.specs.Faults.{fault_text, status_of, fault_of, wire_fault};

use crate::status::Status;
use decode_text::error_line;
use dns_core::{NoMemory, Sink, write_all};
use dns_wire::WireError;
use recursor_text::{Cause, ScenarioError};
use std::alloc::Global;

/// What ends a run before its output.
#[derive(Clone, Copy, Debug, PartialEq, Eq)]
pub enum Fault {
    /// The words of the command line.
    Words,
    /// The line of the scenario with this number.
    Line(u32),
    /// A line of a form that is not built yet.
    NotBuilt(u32),
    /// The first item of a message that cannot be read.
    Wire(WireError),
    /// More bytes than a message may have.
    LongMessage,
    /// The source.
    Read,
    /// Memory.
    Memory,
}

impl Fault {
    /// The status of a run that it ends.
    pub fn status(self) -> Status
        ensures { result ≡ status_of self }
    {
        match self {
            Fault::Words => Status::BadWords,
            Fault::Line(_) | Fault::NotBuilt(_) => Status::BadScenario,
            Fault::Wire(_) | Fault::LongMessage => Status::BadScenario,
            Fault::Read => Status::ReadFault,
            Fault::Memory => Status::NoMemory,
        }
    }

    /// Its text, a line.
    pub fn text(self, alloc: Global) -> Result<Vec<u8>, NoMemory>
        ensures { IfOk result (λ text. text.items ≡ fault_text self) }
    {
        match self {
            Fault::Words => Ok(Vec::from_slice(alloc, b"error words\n")?),
            Fault::Line(n) => Ok(format!(in alloc; "error line {n}\n")?.into_bytes()),
            Fault::NotBuilt(n) => Ok(format!(in alloc; "error line {n} not built\n")?.into_bytes()),
            Fault::Wire(error) => error_line(alloc, error),
            Fault::LongMessage => Ok(Vec::from_slice(alloc, b"error wire Long\n")?),
            Fault::Read => Ok(Vec::from_slice(alloc, b"error read\n")?),
            Fault::Memory => Ok(Vec::from_slice(alloc, b"error memory\n")?),
        }
    }
}

/// The fault of bytes that are no message.
pub fn wire_fault(error: WireError) -> Fault
    ensures { result ≡ wire_fault error }
{
    match error {
        WireError::NoMemory => Fault::Memory,
        _ => Fault::Wire(error),
    }
}

/// The fault of a text that is no scenario.
pub fn fault_of(error: ScenarioError) -> Fault
    ensures { result ≡ fault_of error }
{
    match error.cause {
        Cause::Line | Cause::Cut | Cause::Long => Fault::Line(error.line),
        Cause::NotBuilt => Fault::NotBuilt(error.line),
        Cause::NoMemory => Fault::Memory,
    }
}

/// Writes a text, and answers the status, or `WriteFault` where the sink failed.
pub fn say<K: Sink>(sink: &mut K, text: &[u8], status: Status) -> Status
    requires { status ≢ Status.WriteFault }
    ensures { Wrote result status (K.written sink.old) (K.written sink.new) (K.faults sink.old) (K.faults sink.new) text.now }
{
    match write_all(sink, text) {
        Ok(()) => status,
        Err(_) => Status::WriteFault,
    }
}
