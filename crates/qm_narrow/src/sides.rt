//! Whether a plane parts two windings.

ghost use Rattle.std.specs.Prelude.{◌↔◌, IsTrue};
ghost use Rattle.qm_separators.specs.inner.Found.{Parts};

use crate::traced::Traced;
use qm_geom::Plane;

/// Whether no corner of the pass is behind a plane, and some corner of one of the two is off it on its side.
pub(crate) fn parts(source: &Traced, pass: &Traced, plane: &Plane) -> bool
    ensures { IsTrue result ↔ Parts source.now pass.now plane.now }
{
    if pass.has_corner_behind(plane) {
        return false;
    }
    pass.has_corner_in_front(plane) || source.has_corner_behind(plane)
}
