//! The words of the command line.
ghost use Rattle.std.specs.Prelude.{◌≡◌};
ghost use Rattle.recursor_command.specs.Command.{command_named, command_of};

use dns_core::Text;

/// What the words of the command line ask for.
#[derive(Clone, Copy, Debug, PartialEq, Eq)]
pub enum Command {
    /// To answer the questions of a scenario.
    Resolve,
    /// To say whether the world of a scenario is well served, and which of its questions are valid.
    Check,
    /// To say what the bytes of a message say.
    Decode,
}

/// The command of a name.
fn command_named(name: &Text) -> Option<Command>
    ensures { result ≡ command_named name.now }
{
    let name = name.items().as_bytes();
    if name == b"resolve".as_slice() {
        Some(Command::Resolve)
    } else if name == b"check".as_slice() {
        Some(Command::Check)
    } else if name == b"decode".as_slice() {
        Some(Command::Decode)
    } else {
        None
    }
}

/// The command that the words ask for, where they are the name of one.
pub fn command_of(words: &[Text]) -> Option<Command>
    ensures { result ≡ command_of words.now }
{
    match words {
        [name] => command_named(name),
        _ => None,
    }
}
