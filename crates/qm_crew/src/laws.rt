//! The laws of rows that are found in turns. Each function does nothing: its clauses are the law.

ghost use Rattle.std.specs.Prelude.{ℕ, ◌≡◌, ◌≢◌, Bool, true, List, [], ◌∷◌, length};
ghost use Rattle.std.specs.List.{range_with_len};
ghost use Rattle.qm_lists.specs.WorkList.{IsIn};
ghost use Rattle.qm_contacts.specs.Portals.{Portal};
ghost use Rattle.qm_separators.specs.PortalSteps.{IsInChainBound};
ghost use Rattle.qm_chains.specs.Shown.{IsAt, IsShown};
ghost use Rattle.qm_chains.specs.Turns.{MayHaveAfter, LieWithinTurns, IsInReuse, LieInReuse};
ghost use Rattle.qm_chains.specs.TurnLists.{AreTurns, IsInReuseOver, LieInReuseOver};
ghost use Rattle.qm_sight.specs.WordInSight.{ceiling_of};
ghost use Rattle.qm_sight.specs.InCeiling.{IsInCeiling};

/// One turn, place by place: where the portal's row has a leaf only by open chains over what all rows had before, and no other
/// row gains a leaf, all rows stay within what they may have after that turn. `old` and `new` tell of a leaf and a portal
/// whether the portal's row has the leaf.
pub fn turns_stay_within()
    ensures { (portals : List Portal) (turns : List ℕ) (p : ℕ) (old new : ℕ → ℕ → Bool) →
        ((n q : ℕ) → old n q ≡ true → MayHaveAfter portals turns n q) →
        ((n : ℕ) → new n p ≡ true → IsShown portals (λ q. old n q ≡ true) p n) →
        ((n q : ℕ) → q ≢ p → new n q ≡ true → old n q ≡ true) →
        (n q : ℕ) → new n q ≡ true → MayHaveAfter portals (p ∷ turns) n q }
{}

/// One turn: where the row of a portal is found by open chains over the rows as they stood, and no other row gains a leaf, all
/// rows lie within what they may have after that turn.
pub fn rows_stay_within_turns()
    ensures { (portals : List Portal) (turns : List ℕ) (p : ℕ) (old new : List (List Bool)) →
        LieWithinTurns portals turns old →
        ((n : ℕ) → IsIn (ceiling_of new p) n → IsShown portals (IsInCeiling old n) p n) →
        ((n q : ℕ) → q ≢ p → IsIn (ceiling_of new q) n → IsIn (ceiling_of old q) n) →
        LieWithinTurns portals (p ∷ turns) new }
{}

/// The reuse of a portal over turns of any number of workers lies within its bound. So does that over the one list of all
/// portals in order.
pub fn reuse_lies_in_bounds()
    ensures over_turns { (portals : List Portal) (workers : ℕ) (turns : List (List ℕ)) → AreTurns workers (length portals) turns →
        (n q : ℕ) (portal : Portal) → IsAt portals q portal → IsInReuseOver portals turns q n → IsInChainBound portals portal n }
    ensures in_order { (portals : List Portal) (n q : ℕ) (portal : Portal) → IsAt portals q portal →
        IsInReuse portals q n → IsInChainBound portals portal n }
{}

/// Rows that lie within the reuse over the one list of all portals in order lie within the reuse of their portals, and the other
/// way round.
pub fn one_list_is_all_in_order()
    ensures within { (portals : List Portal) (rows : List (List Bool)) → LieInReuseOver portals (range_with_len 0 (length portals) ∷ []) rows → LieInReuse portals rows }
    ensures over { (portals : List Portal) (rows : List (List Bool)) → LieInReuse portals rows → LieInReuseOver portals (range_with_len 0 (length portals) ∷ []) rows }
{}
