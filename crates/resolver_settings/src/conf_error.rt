//! Why a resolver's text gives no configuration.

use dns_core::NoMemory;
use std::alloc::AllocError;
use std::error::Error;
use std::fmt;

/// Why a resolver's text gives no configuration.
#[derive(Clone, Copy, Debug, PartialEq, Eq)]
pub enum ConfError {
    /// No line gives the address of a server.
    NoNameServers,

    /// The word of this number, from 1, in the search list is no name.
    BadSearchName(u32),

    /// The text could not be read.
    ReadFault,

    /// The text has more than 1,048,576 bytes.
    TooLong,

    NoMemory,
}

impl From<NoMemory> for ConfError {
    ghost use Rattle.std.specs.Prelude.{◌≡◌};
    ghost use Rattle.resolver_settings.specs.declared.conf_error.ConfError.TheVariants.{NoMemory as no_memory};

    ghost from_gives = { λ _ e. e ≡ no_memory };

    fn from(_e: NoMemory) -> ConfError {
        ConfError::NoMemory
    }
}

impl From<AllocError> for ConfError {
    ghost use Rattle.std.specs.Prelude.{◌≡◌};
    ghost use Rattle.resolver_settings.specs.declared.conf_error.ConfError.TheVariants.{NoMemory as no_memory};

    ghost from_gives = { λ _ e. e ≡ no_memory };

    fn from(_e: AllocError) -> ConfError {
        ConfError::NoMemory
    }
}

impl fmt::Display for ConfError {
    ghost use Rattle.std.specs.Prelude.{Some};
    ghost use Rattle.resolver_settings.specs.ConfError.{conf_error_text};

    ghost output = { λ e. Some (conf_error_text e) };

    fn fmt<W: fmt::Write>(&self, f: &mut fmt::Formatter<W>) -> fmt::Result {
        match self {
            ConfError::NoNameServers => f.write_str("no line gives the address of a name server"),
            ConfError::BadSearchName(number) => {
                write!(f, "word {number} of the search list is no domain name")
            }
            ConfError::ReadFault => f.write_str("the resolver text could not be read"),
            ConfError::TooLong => f.write_str("the resolver text has more than 1048576 bytes"),
            ConfError::NoMemory => f.write_str("out of memory"),
        }
    }
}

impl Error for ConfError {}
