//! The laws of separators and steps that later layers cite. Each function does nothing: its clauses are the laws.

ghost use Rattle.std.specs.Prelude.{List};
ghost use Rattle.qm_space.specs.Plane.{Plane};
ghost use Rattle.qm_convex.specs.Winding.{Winding, IsConvex};
ghost use Rattle.qm_contacts.specs.Portals.{Portal};
ghost use Rattle.qm_segments.specs.Steps.{LetSegmentsThrough, LeadOnOrBlock};
ghost use Rattle.qm_separators.specs.Part.{HasSameRegion};
ghost use Rattle.qm_separators.specs.Separator.{IsSeparator};
ghost use Rattle.qm_separators.specs.ChainState.{ChainState, IsChainState};
ghost use Rattle.qm_separators.specs.ChainStep.{StepsTo, Blocks};
ghost use Rattle.qm_separators.specs.PortalSteps.{BeginsWith, StepsThrough, BlocksAt, MeetsState, AreConvexPortals};

/// No step takes a segment away that goes on through portals: a segment that has met a state and goes through a portal
/// further on meets all that the step there leaves, which therefore does not block.
pub fn steps_let_segments_through()
    ensures { (portals : List Portal) → AreConvexPortals portals → LetSegmentsThrough BeginsWith StepsThrough BlocksAt portals MeetsState }
{}

/// Each step of an open chain leads to a state or blocks, and no step does both.
pub fn steps_lead_or_block()
    ensures either { (portals : List Portal) → AreConvexPortals portals → LeadOnOrBlock BeginsWith StepsThrough BlocksAt portals }
    ensures not_both { (state : ChainState) (target : Winding) (into : Plane) (next : ChainState) →
        IsChainState state → StepsTo state target into next → Blocks state target into → ⊥ }
{}

/// Separators do not depend on how windings are written: windings with the same points have the same ones.
pub fn separators_of_points()
    ensures { (s t p q : Winding) (h : Plane) → IsConvex s → IsConvex t → IsConvex p → IsConvex q →
        HasSameRegion s t → HasSameRegion p q → IsSeparator s p h → IsSeparator t q h }
{}
