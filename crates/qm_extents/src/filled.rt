//! Windings that fill their cuboids.

ghost use Rattle.std.specs.Prelude.{◌≡◌, true, ◌↔◌, IsTrue, All, pos, ◌≤ℤ◌};
ghost use Rattle.qm_space.specs.Cuboid.{least_value, greatest_value};
ghost use Rattle.qm_extents.specs.Filled.{HasAllOf};

use qm_geom::{Cuboid, Plane};
use qm_wind::Winding;

/// Whether values tell that a winding has all of a cuboid, its border included. Most portals fill theirs: those with
/// an axial plane and axial edges.
pub(crate) fn fills(winding: &Winding, cuboid: &Cuboid) -> bool
    ensures { result ≡ true → HasAllOf winding.now cuboid.now }
{
    if !is_on(cuboid, &winding.plane()) {
        return false;
    }
    is_not_behind(cuboid, winding.edges())
}

/// Whether all of a cuboid is on a plane.
fn is_on(cuboid: &Cuboid, plane: &Plane) -> bool
    ensures below { result ≡ true → pos 0 ≤ℤ least_value plane.now cuboid.now }
    ensures above { result ≡ true → greatest_value plane.now cuboid.now ≤ℤ pos 0 }
{
    cuboid.least_value(plane) >= 0 && cuboid.greatest_value(plane) <= 0
}

/// Whether no point of a cuboid is behind one of some planes.
fn is_not_behind(cuboid: &Cuboid, planes: &[Plane]) -> bool
    ensures { IsTrue result ↔ All (λ h. pos 0 ≤ℤ least_value h cuboid.now) planes.now }
{
    planes.iter().all(|plane| cuboid.least_value(plane) >= 0)
}
