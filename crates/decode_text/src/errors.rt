//! What is wrong with bytes that are no message, as a line.
ghost use Rattle.std.specs.Prelude.{◌≡◌, IfOk};
ghost use Rattle.decode_text.specs.Errors.{error_name, error_line};

use dns_core::NoMemory;
use dns_wire::WireError;
use std::alloc::Global;

fn error_name(error: WireError) -> &'static str
    ensures { result.now ≡ error_name error }
{
    match error {
        WireError::Short => "Short",
        WireError::BadLabel => "BadLabel",
        WireError::BadPointer => "BadPointer",
        WireError::BadByte => "BadByte",
        WireError::LongName => "LongName",
        WireError::BadData => "BadData",
        WireError::BadOpt => "BadOpt",
        WireError::Trailing => "Trailing",
        WireError::NoMemory => "NoMemory",
    }
}

/// The line that tells what is wrong.
pub fn error_line(alloc: Global, error: WireError) -> Result<Vec<u8>, NoMemory>
    ensures { IfOk result (λ line. line.items ≡ error_line error) }
{
    let name = error_name(error);
    Ok(format!(in alloc; "error wire {name}\n")?.into_bytes())
}
