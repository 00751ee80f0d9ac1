//! The laws of a board that later layers cite. Each function does nothing: its clauses are the laws.

ghost use Rattle.std.specs.Prelude.{ℕ, ◌<◌, List};
ghost use Rattle.qm_contacts.specs.World.{World};
ghost use Rattle.qm_sight.specs.WordInSight.{LieWithin};
ghost use Rattle.qm_shared_rows.specs.Findings.{Findings, found_by_both};
ghost use Rattle.qm_shared_rows.specs.SharedRows.{SharedRows, BitsLieIn, row_word};
ghost use Rattle.qm_shared_rows.specs.Opening.{AreGivenRows, opening_of};
ghost use Rattle.qm_shared_rows.specs.Steps.{IsBoardStep};
ghost use Rattle.qm_shared_rows.specs.Sound.{IsSoundBoard};
ghost use Rattle.qm_shared_rows.specs.Runs.{ComesFrom};
ghost use Rattle.qm_board.specs.WorldSets.{sets_of};
ghost use Rattle.qm_board.specs.Ceilings.{ceiling_rows};
ghost use Rattle.qm_board.specs.GoesOn.{HasMore};

/// Rows of a world are shared soundly at the start, after each step, and so after every list of steps, of any passes and in any
/// order. No step adds a bit to a row.
pub fn boards_stay_sound()
    ensures opening { (world : World) (rows : List ℕ) → AreGivenRows (sets_of world) rows → IsSoundBoard (sets_of world) (opening_of (sets_of world) rows) }
    ensures kept { (world : World) (old new : SharedRows) → IsSoundBoard (sets_of world) old → IsBoardStep (sets_of world) old new → IsSoundBoard (sets_of world) new }
    ensures always { (world : World) (first state : SharedRows) → IsSoundBoard (sets_of world) first → ComesFrom (sets_of world) first state → IsSoundBoard (sets_of world) state }
    ensures only_narrow { (world : World) (first state : SharedRows) (portal k : ℕ) → IsSoundBoard (sets_of world) first → ComesFrom (sets_of world) first state →
        portal < (sets_of world).portals → k < (sets_of world).width → BitsLieIn (row_word (sets_of world) state portal k) (row_word (sets_of world) first portal k) }
{}

/// The ceilings of a pass that has found more lie within those before; what either of two passes has found, both have.
pub fn ceilings_only_narrow()
    ensures narrow { (world : World) (old new : Findings) → HasMore old new → LieWithin (ceiling_rows world new) (ceiling_rows world old) }
    ensures first { (pass other : Findings) → HasMore pass (found_by_both pass other) }
    ensures second { (pass other : Findings) → HasMore other (found_by_both pass other) }
{}
