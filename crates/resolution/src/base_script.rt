//! Two small logs, worked: an answer below two delegations, and one by way of an alias.
ghost use Rattle.std.specs.Prelude.{◌∷◌, [], false};
ghost use Rattle.resolution.specs.Names.{question};
ghost use Rattle.resolution.specs.Answering.{Answer};
ghost use Rattle.resolution.specs.BaseScript as script;

/// The reply of the base script rests on its twelfth entry.
pub fn the_base_script_is_answered()
    ensures { Answer script.policy script.log 0 (question script.example 1) false (12 ∷ []) script.reply }
{}

/// A reply by way of an alias rests on two entries.
pub fn an_alias_is_answered()
    ensures { Answer script.policy script.alias_log 0 (question script.x 1) false (4 ∷ 8 ∷ []) script.whole_reply }
{}
