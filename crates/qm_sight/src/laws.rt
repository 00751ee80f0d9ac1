//! The laws of segments, sight and bounds that later layers cite. Each function does nothing: its clauses are the laws.
//! In all of them the portals are those of a tree each of whose leaves has a point.

ghost use Rattle.std.specs.Prelude.{◌≡◌, ◌≢◌, ◌⊎◌, ℕ, List, [], ◌∷◌, Bool, Contains};
ghost use Rattle.qm_contents.specs.declared.contents.Contents.{Contents};
ghost use Rattle.qm_contents.specs.declared.contents.Contents.TheVariants.{Solid};
ghost use Rattle.qm_partition.specs.Tree.{Tree};
ghost use Rattle.qm_partition.specs.Ways.{HasPoints};
ghost use Rattle.qm_contacts.specs.Meeting.{meetings};
ghost use Rattle.qm_contacts.specs.Touching.{Touching, AreTouchings};
ghost use Rattle.qm_contacts.specs.Portals.{Portal, portals_of};
ghost use Rattle.qm_coarse_rows.specs.CoarseRow.{IsInCoarseRow, AreCoarseRows};
ghost use Rattle.qm_segments.specs.Segment.{Segment};
ghost use Rattle.qm_segments.specs.Generic.{IsGeneric};
ghost use Rattle.qm_segments.specs.Clear.{IsClear, LeafHas};
ghost use Rattle.qm_segments.specs.LedByPortals.{IsLedByPortals};
ghost use Rattle.qm_segments.specs.Sight.{IsInSight, AreSoundRows};
ghost use Rattle.qm_segments.specs.Ahead.{IsAhead};
ghost use Rattle.qm_segments.specs.Route.{Route};
ghost use Rattle.qm_segments.specs.SeenVia.{IsSeenVia};
ghost use Rattle.qm_separators.specs.ChainState.{ChainState};
ghost use Rattle.qm_separators.specs.PortalSteps.{BeginsWith, MeetsState, IsInChainBound};
ghost use Rattle.qm_sight.specs.WaysOn.{IsLedOn, IsOnWay, IsLedStraight};

/// The law of segments: a generic segment in leaves of one contents that is not solid goes by portals from its first leaf
/// to its last, and enters no leaf twice; its last leaf is in sight of each of these portals.
pub fn segments_go_by_portals()
    ensures { (tree : Tree) (touchings : List Touching) (s : Segment) (contents : Contents) →
        HasPoints tree → AreTouchings tree.planes (meetings tree) touchings →
        IsGeneric tree s → contents ≢ Solid → IsClear (LeafHas tree) tree s contents →
        IsLedByPortals tree (portals_of tree touchings) s }
{}

/// Coarse rows have all that is in sight.
pub fn coarse_rows_are_sound()
    ensures { (tree : Tree) (touchings : List Touching) (leaves : ℕ) (rows : List (List Bool)) →
        HasPoints tree → AreTouchings tree.planes (meetings tree) touchings →
        AreCoarseRows (portals_of tree touchings) leaves rows →
        AreSoundRows tree (portals_of tree touchings) rows }
{}

/// The bound of a portal has all that is in sight of it, and lies within its coarse row.
pub fn bounds_lie_between()
    ensures sight { (tree : Tree) (touchings : List Touching) (p : Portal) (n : ℕ) →
        HasPoints tree → AreTouchings tree.planes (meetings tree) touchings → Contains (portals_of tree touchings) p →
        IsInSight tree p n → IsInChainBound (portals_of tree touchings) p n }
    ensures coarse { (tree : Tree) (touchings : List Touching) (p : Portal) (n : ℕ) →
        HasPoints tree → AreTouchings tree.planes (meetings tree) touchings → Contains (portals_of tree touchings) p →
        IsInChainBound (portals_of tree touchings) p n → IsInCoarseRow (portals_of tree touchings) p n }
{}

/// A leaf in sight of a portal is ahead of the first state of its chains.
pub fn sight_is_ahead_at_start()
    ensures { (tree : Tree) (touchings : List Touching) (p : Portal) (k : ℕ) (state : ChainState) →
        HasPoints tree → AreTouchings tree.planes (meetings tree) touchings → Contains (portals_of tree touchings) p →
        BeginsWith p state → IsInSight tree p k → IsAhead MeetsState tree p state p.to (p.to ∷ p.from ∷ []) k }
{}

/// A leaf that is ahead is the one that the chain has reached, or some portal leads on to it.
pub fn ahead_is_led_on()
    ensures { (tree : Tree) (touchings : List Touching) (p : Portal) (state : ChainState) (n : ℕ) (met_before : List ℕ) (k : ℕ) →
        HasPoints tree → AreTouchings tree.planes (meetings tree) touchings →
        IsAhead MeetsState tree p state n met_before k →
        (n ≡ k) ⊎ IsLedOn tree (portals_of tree touchings) p state n met_before k }
{}

/// To a leaf that is ahead there is a way over portals that the state lets pass, each of them seen through, into none of the
/// leaves met before.
pub fn ahead_has_a_way()
    ensures { (tree : Tree) (touchings : List Touching) (p : Portal) (state : ChainState) (n : ℕ) (met_before : List ℕ) (k : ℕ) →
        HasPoints tree → AreTouchings tree.planes (meetings tree) touchings →
        IsAhead MeetsState tree p state n met_before k →
        Route (portals_of tree touchings) (IsOnWay tree p state met_before k) n k }
{}

/// The step from the first state of a portal's chains straight to a portal via which a leaf is seen does not block, and after
/// it the leaf is ahead.
pub fn seen_via_is_led_straight()
    ensures { (tree : Tree) (touchings : List Touching) (p q : Portal) (state : ChainState) (k : ℕ) →
        HasPoints tree → AreTouchings tree.planes (meetings tree) touchings →
        Contains (portals_of tree touchings) p → Contains (portals_of tree touchings) q →
        BeginsWith p state → IsSeenVia tree p q k → IsLedStraight tree p q state k }
{}
