//! What the steps of a draft come to, whatever the lines.
ghost use Rattle.std.specs.Prelude.{◌≡◌, ℕ, List, [], ◌∷◌, ◌++◌, Some, None};
ghost use Rattle.zone_rules.specs.declared.world.World.{World};
ghost use Rattle.recursor_text.specs.declared.world_reading.draft.WorldDraft.{WorldDraft};
ghost use Rattle.recursor_text.specs.WorldReading.{IsRead, CanStand};
ghost use Rattle.recursor_text.specs.WorldSpelling.{world_lines, IsWorld};
ghost use Rattle.recursor_text.specs.WorldSteps.{start, run, taken};

/// The lines of each world are read as it, and no other lines are.
pub fn a_world_is_what_its_lines_say()
    ensures found { (lines : List (List ℕ)) (w : World) → IsRead lines w → IsWorld w × (lines ≡ world_lines w) }
    ensures only { (w : World) → IsWorld w → IsRead (world_lines w) w }
{}

/// A line is taken exactly where some world goes on with it after the lines before.
pub fn a_line_is_taken_where_it_can_stand()
    ensures stands { (lines : List (List ℕ)) (d : WorldDraft) → run start lines ≡ Some d → CanStand lines }
    ensures fails { (lines : List (List ℕ)) (d : WorldDraft) (line : List ℕ) → run start lines ≡ Some d → taken d line ≡ None → CanStand (lines ++ line ∷ []) → ⊥ }
{}
