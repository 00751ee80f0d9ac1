ghost use Rattle.std.specs.Prelude.{◌↔◌, IsTrue};
ghost use Rattle.qm_convex.specs.Winding.{IsConvex};
ghost use Rattle.qm_convex.specs.Sides.{HasCornerInFront};

use crate::survey::side_of_corner;
use qm_geom::{Line, Plane};

/// Whether a corner of a winding is strictly in front of a plane. No corner is asked after the first one that is.
pub(crate) fn is_any_in_front(on: &Plane, edges: &[Plane], plane: &Plane) -> bool
    requires { IsConvex (record { plane = on.now; edges = edges.now }) }
    ensures { IsTrue result ↔ HasCornerInFront (record { plane = on.now; edges = edges.now }) plane.now }
{
    let line = Line::of(plane, on);
    for i in 0..edges.len() {
        if side_of_corner(&line, edges, i).is_gt() {
            return true;
        }
    }
    false
}
