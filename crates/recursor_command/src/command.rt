//! The command over any source and sink.
ghost use Rattle.std.specs.Prelude.{◌≡◌, ◌≢◌, None, Err, IfOk, IfErr, IfSome};
ghost use Rattle.std.specs.Io.KnownBytes.{IsAtEnd, Appends};
ghost use Rattle.dns_core.specs.Faults.{Rose};
ghost use Rattle.dns_core.specs.WholeStreams.{HeldAll, TakesAtMost};
ghost use Rattle.recursor_command.specs.Faults.{fault_text};
ghost use Rattle.recursor_command.specs.Command.{command_of, most_for, most_by, HasOutput, IsFaultOf, Tells, HasWritten, HasRefused, IsTextFor, IsTextOf, WrotePart, ToldMemory, IsRefusal};

use crate::checking::findings_for;
use crate::decoding::message_for;
use crate::faults::{Fault, say};
use crate::resolving::transcript_for;
use crate::status::Status;
use crate::words::{Command, command_of};
use dns_core::{ReadError, Sink, Source, Text, read_all};
use std::alloc::Global;

/// One byte more than a scenario may have, so that one that is too long shows.
const MOST: usize = 16_777_217;

/// One byte more than a message may have.
const MOST_OF_MESSAGE: usize = 65_536;

/// The most bytes that a command takes.
fn most_for(command: Command) -> usize
    ensures { result ≡ most_for command }
{
    match command {
        Command::Resolve | Command::Check => MOST,
        Command::Decode => MOST_OF_MESSAGE,
    }
}

/// The bytes of a source to its end, or so many that they are too many for the command.
fn bytes_of<S: Source>(
    alloc: Global,
    command: Command,
    source: &mut S,
) -> Result<Vec<u8>, ReadError>
    ensures held { IfOk result (λ bytes. HeldAll (S.left source.old) (S.left source.new) bytes.items (most_for command)) }
    ensures bound { TakesAtMost (most_for command) (S.left source.old) (S.left source.new) }
    ensures fault { result ≡ Err ReadError.Failed → Rose (S.faults source.old) (S.faults source.new) }
{
    read_all(alloc, source, most_for(command))
}

/// What the command writes for the bytes, or the fault that ends the run.
fn output(alloc: Global, command: Command, bytes: &[u8]) -> Result<Vec<u8>, Fault>
    ensures ok { IfOk result (λ text. HasOutput command bytes.now text.items) }
    ensures err { IfErr result (IsFaultOf command bytes.now) }
{
    match command {
        Command::Resolve => transcript_for(alloc, bytes),
        Command::Check => findings_for(alloc, bytes),
        Command::Decode => message_for(alloc, bytes),
    }
}

/// Writes the text of a fault, and answers its status.
fn tell<K: Sink>(alloc: Global, sink: &mut K, fault: Fault) -> Status
    ensures { Tells fault result (K.written sink.old) (K.written sink.new) (K.faults sink.old) (K.faults sink.new) }
{
    match fault.text(alloc) {
        Ok(text) => say(sink, text.as_slice(), fault.status()),
        Err(_) => Status::NoMemory,
    }
}

/// Writes the output of the command for the bytes, or the fault.
fn finish<K: Sink>(alloc: Global, command: Command, sink: &mut K, bytes: &[u8]) -> Status
    ensures done { result ≡ Status.Done → HasWritten command bytes.now (K.written sink.old) (K.written sink.new) }
    ensures scenario { result ≡ Status.BadScenario → HasRefused command bytes.now (K.written sink.old) (K.written sink.new) }
    ensures write { result ≡ Status.WriteFault → WrotePart (IsTextFor command bytes.now) (K.faults sink.old) (K.faults sink.new) (K.written sink.old) (K.written sink.new) }
    ensures memory { result ≡ Status.NoMemory → ToldMemory (K.written sink.old) (K.written sink.new) }
    ensures read { result ≢ Status.ReadFault }
    ensures words { result ≢ Status.BadWords }
{
    match output(alloc, command, bytes) {
        Ok(text) => say(sink, text.as_slice(), Status::Done),
        Err(fault) => tell(alloc, sink, fault),
    }
}

/// Runs the command that the words name: reads a scenario, or for `decode` a message, from the source to
/// its end, and writes what the command says of it, or the text of what is wrong. `resolve` answers the
/// questions over the script or the world, and writes the transcript. `check` asks nothing: it writes
/// whether the world is well served, and which questions are valid. `decode` writes the message as text.
pub fn run<S: Source, K: Sink>(
    alloc: Global,
    words: &[Text],
    source: &mut S,
    sink: &mut K,
) -> Status
    // The transcript of what the source held, read to its end, what there is to tell of it, or its message as text was written.
    ensures done { result ≡ Status.Done → IfSome (command_of words.now) (λ asked. IfSome (S.left source.old) (λ bytes. HasWritten asked bytes (K.written sink.old) (K.written sink.new))) }
    ensures to_end { result ≡ Status.Done → IsAtEnd (S.left source.new) }

    // No more bytes are taken than show that a scenario or a message is too long.
    ensures bound { TakesAtMost (most_by (command_of words.now)) (S.left source.old) (S.left source.new) }

    // What the source held is no scenario or message that the command takes, and its fault was written.
    ensures scenario { result ≡ Status.BadScenario → IfSome (command_of words.now) (λ asked. IfSome (S.left source.old) (λ bytes. HasRefused asked bytes (K.written sink.old) (K.written sink.new))) }

    // The words are no command, which was written; and nothing was read.
    ensures words { result ≡ Status.BadWords → (command_of words.now ≡ None) × Appends (K.written sink.old) (K.written sink.new) (fault_text Fault.Words) }
    ensures refused { command_of words.now ≡ None → IsRefusal result × (source.new ≡ source.old) }

    // The source failed, which was written; the sink failed, and a front of what was to be written was.
    ensures read { result ≡ Status.ReadFault → Rose (S.faults source.old) (S.faults source.new) × Appends (K.written sink.old) (K.written sink.new) (fault_text Fault.Read) }
    ensures write { result ≡ Status.WriteFault → WrotePart (IsTextOf (command_of words.now) (S.left source.old) (S.faults source.old) (S.faults source.new)) (K.faults sink.old) (K.faults sink.new) (K.written sink.old) (K.written sink.new) }

    // Memory ran out, which was written, or nothing.
    ensures memory { result ≡ Status.NoMemory → ToldMemory (K.written sink.old) (K.written sink.new) }
{
    let Some(command) = command_of(words) else {
        return tell(alloc, sink, Fault::Words);
    };
    match bytes_of(alloc, command, source) {
        Ok(bytes) => finish(alloc, command, sink, bytes.as_slice()),
        Err(ReadError::Failed) => tell(alloc, sink, Fault::Read),
        Err(ReadError::NoMemory) => tell(alloc, sink, Fault::Memory),
    }
}
