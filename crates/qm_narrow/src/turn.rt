//! Normals of the planes through an edge and a corner.

use qm_geom::Vector;

/// The normal of the plane through an edge and the whole point nearest to a corner. Where the corner is loose, no whole point
/// itself, a plane through the edge and another whole point around it has a normal that is a little turned.
#[derive(Clone, Copy)]
pub(crate) struct Turn {
    pub(crate) normal: Vector,
    pub(crate) loose: bool,
}
