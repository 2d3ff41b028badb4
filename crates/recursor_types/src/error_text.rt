//! What an error prints.

use crate::error::RecursorError;
use std::error::Error;
use std::fmt;

impl fmt::Display for RecursorError {
    ghost use Rattle.recursor_types.specs.ErrorTexts.{recursor_error_text};

    ghost output = { recursor_error_text };

    fn fmt<W: fmt::Write>(&self, f: &mut fmt::Formatter<W>) -> fmt::Result {
        match self {
            RecursorError::MaxRecordLimitExceeded { count, record_type } => write!(
                f,
                "maximum record limit for {record_type} exceeded: {count} records"
            ),
            RecursorError::Message(kind) => write!(f, "{kind}"),
            RecursorError::Msg(text) => f.write_str(text.items()),
            RecursorError::Negative(_) => f.write_str("negative response"),
            RecursorError::ForwardNS(_) => f.write_str("forward NS Response"),
            RecursorError::Io(kind) => write!(f, "io error: {kind}"),
            RecursorError::Net(error) => write!(f, "net error: {error}"),
            RecursorError::Timeout => f.write_str("request timed out"),
            RecursorError::RecursionLimitExceeded { count } => {
                write!(f, "maximum recursion limit exceeded: {count} queries")
            }
            RecursorError::QueryBudgetExceeded => f.write_str("per-request query budget exceeded"),
            RecursorError::NoNameServer { zone, cause } => {
                write!(f, "no nameserver found for {zone}: {cause}")
            }
            RecursorError::NoMemory => f.write_str("out of memory"),
        }
    }
}

impl Error for RecursorError {}
