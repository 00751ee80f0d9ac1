//! Which portals a line may still pass that has met a state.

ghost use Rattle.std.specs.Prelude.{◌↔◌, IsTrue, MatchOption};
ghost use Rattle.qm_convex.specs.Sides.{HasCornerBehind};
ghost use Rattle.qm_separators.specs.MayPass.{MayPass};
ghost use Rattle.qm_separators.specs.inner.Found.{HasCornersBeyond};

use crate::beyond::{reaches, reaches_all};
use crate::chain_state::ChainState;
use crate::traced::Traced;
use qm_extents::{Extent, MeasuredPane};
use qm_geom::Plane;
use qm_wind::{Pane, Winding};

/// Whether a line that has met the state may still pass the portal.
pub fn may_pass(state: &ChainState, pane: &Pane) -> bool
    ensures { IsTrue result ↔ MayPass state.now pane.now.winding pane.now.into }
{
    let extent = Extent::of(pane);
    may_pass_measured(state, &MeasuredPane::of(pane, &extent))
}

/// The same of a pane with its extent. What the cuboid tells of separators is asked first, and where the pane has all of it,
/// that tells all.
pub fn may_pass_measured(state: &ChainState, pane: &MeasuredPane<'_>) -> bool
    ensures { IsTrue result ↔ MayPass state.now pane.now.winding pane.now.into }
{
    let planes = state.separators();
    let winding = &pane.pane().winding;
    let _corners = winding.len();
    let extent = pane.measure();
    if !reaches_all(&extent.cuboid, planes) {
        return false;
    }
    if !pass_is_behind(state.pass(), &extent.into) {
        return false;
    }
    if !state.trace().has_corner_behind(&extent.into) {
        return false;
    }
    if extent.is_full {
        return reaches(&extent.cuboid, state.into());
    }
    if !winding.has_corner_in_front(state.into()) {
        return false;
    }
    is_beyond(winding, planes)
}

/// Whether the pass, where there is one, has a corner behind a plane.
fn pass_is_behind(pass: &Option<Traced>, plane: &Plane) -> bool
    ensures { IsTrue result ↔ MatchOption pass.now (Unit {0}) (λ p. HasCornerBehind p plane.now) }
{
    match pass {
        None => true,
        Some(pass) => pass.has_corner_behind(plane),
    }
}

/// Whether a winding has a corner in front of each of some planes.
fn is_beyond(winding: &Winding, planes: &[Plane]) -> bool
    ensures { IsTrue result ↔ HasCornersBeyond winding.now planes.now }
{
    for plane in planes {
        if !winding.has_corner_in_front(plane) {
            return false;
        }
    }
    true
}
