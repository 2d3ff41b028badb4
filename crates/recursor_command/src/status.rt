//! How a run ended.

/// How a run ended.
#[derive(Clone, Copy, Debug, PartialEq, Eq)]
pub enum Status {
    /// All was read and written.
    Done,
    /// The words of the command line are none that the program knows.
    BadWords,
    /// What was read is no scenario, or no message.
    BadScenario,
    /// The source failed.
    ReadFault,
    /// The sink failed; a front of the text was written.
    WriteFault,
    /// There was no memory left.
    NoMemory,
}

impl Status {
    ghost use Rattle.std.specs.Prelude.{◌≡◌};
    ghost use Rattle.recursor_command.specs.Status.{code_of};

    /// The number with which the program exits.
    pub fn code(self) -> u8
        ensures { result ≡ code_of self }
    {
        match self {
            Status::Done => 0,
            Status::BadWords => 2,
            Status::BadScenario => 3,
            Status::ReadFault => 4,
            Status::WriteFault => 5,
            Status::NoMemory => 6,
        }
    }
}
