//! Whether a connection stands.
ghost use Rattle.server_core.specs.Status.{number_of, status_of, IsReadBack};

/// What became of a connection: it failed, it is yet to be opened, or it stands.
#[derive(Clone, Copy, Debug, PartialEq, Eq)]
pub enum Status {
    Failed,
    Init,
    Established,
}

impl From<Status> for u8 {
    ghost use Rattle.std.specs.Prelude.{◌≡◌};

    ghost from_gives = { λ status n. n ≡ number_of status };

    fn from(status: Status) -> u8 {
        match status {
            Status::Failed => 0,
            Status::Init => 1,
            Status::Established => 2,
        }
    }
}

/// Numbers that stand for no status are read as a failure.
impl From<u8> for Status {
    ghost use Rattle.std.specs.Prelude.{◌≡◌};

    ghost from_gives = { λ n status. status ≡ status_of n };

    fn from(number: u8) -> Status {
        match number {
            1 => Status::Init,
            2 => Status::Established,
            _ => Status::Failed,
        }
    }
}

/// The status of the number of a status is that status.
pub fn a_status_is_read_back()
    ensures { IsReadBack }
{}
