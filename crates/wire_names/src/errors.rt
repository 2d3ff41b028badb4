//! Why bytes are no message.
ghost use Rattle.std.specs.Prelude.{◌≡◌};
ghost use Rattle.wire_names.specs.declared.errors.WireError.TheVariants.{NoMemory};

use dns_core::NoMemory as WantOfMemory;
use std::alloc::{AllocError, AllocFailed};

/// What is wrong with the bytes of a message: the first item from the left that cannot be read.
#[derive(Clone, Copy, Debug, PartialEq, Eq)]
pub enum WireError {
    /// The bytes end within an item.
    Short,
    /// The two top bits of a length byte are 01 or 10.
    BadLabel,
    /// A pointer does not lead to a place before the labels that it ends.
    BadPointer,
    /// A label has a byte that no name here may have.
    BadByte,
    /// A name has more than 255 bytes.
    LongName,
    /// Data does not fill its length.
    BadData,
    /// An OPT record stands where none may.
    BadOpt,
    /// Bytes follow the message.
    Trailing,
    /// There is no memory left.
    NoMemory,
}

impl From<AllocError> for WireError {
    ghost from_gives = { λ _ e. e ≡ NoMemory };

    fn from(_e: AllocError) -> WireError {
        WireError::NoMemory
    }
}

impl<T: Drop> From<AllocFailed<T>> for WireError {
    ghost from_gives = { λ _ e. e ≡ NoMemory };

    fn from(_e: AllocFailed<T>) -> WireError {
        WireError::NoMemory
    }
}

impl From<WantOfMemory> for WireError {
    ghost from_gives = { λ _ e. e ≡ NoMemory };

    fn from(_e: WantOfMemory) -> WireError {
        WireError::NoMemory
    }
}
