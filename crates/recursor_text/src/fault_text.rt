//! What the fault of a text that is no scenario is told as.

use crate::scenario::{Cause, ScenarioError};
use std::error::Error;
use std::fmt;

impl fmt::Display for Cause {
    ghost use Rattle.std.specs.Prelude.{Some};
    ghost use Rattle.recursor_text.specs.FaultText.{cause_text};

    ghost output = { λ cause. Some (cause_text cause) };

    fn fmt<W: fmt::Write>(&self, f: &mut fmt::Formatter<W>) -> fmt::Result {
        match self {
            Cause::Line => f.write_str("the line cannot stand there"),
            Cause::NotBuilt => f.write_str("the line is of a form that is not built yet"),
            Cause::Cut => f.write_str("the text ends before its end line"),
            Cause::Long => f.write_str("the text has more than 16,777,216 bytes"),
            Cause::NoMemory => f.write_str("out of memory"),
        }
    }
}

impl Error for Cause {}

impl fmt::Display for ScenarioError {
    ghost use Rattle.std.specs.Prelude.{Some};
    ghost use Rattle.recursor_text.specs.FaultText.{scenario_error_text};

    ghost output = { λ e. Some (scenario_error_text e) };

    fn fmt<W: fmt::Write>(&self, f: &mut fmt::Formatter<W>) -> fmt::Result {
        write!(f, "line {}: {}", self.line, self.cause)
    }
}

impl Error for ScenarioError {}
