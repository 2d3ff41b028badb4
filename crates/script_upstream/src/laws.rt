//! Laws of the definitions.
ghost use Rattle.std.specs.Prelude.{List, ◌++◌};
ghost use Rattle.dns_core.specs.declared.log.LogEntry.{LogEntry};
ghost use Rattle.script_upstream.specs.Giving.{Gives};
ghost use Rattle.script_upstream.specs.declared.script.script.Script.{Script};

/// Law: a script that gives a log gives each front of it.
pub fn fronts_are_given()
    ensures { (s : Script) (es more : List LogEntry) → Gives s (es ++ more) → Gives s es }
{}
