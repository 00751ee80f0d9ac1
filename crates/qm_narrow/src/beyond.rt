//! Cuboids that reach beyond planes.

ghost use Rattle.std.specs.Prelude.{◌↔◌, IsTrue, pos, ◌<ℤ◌};
ghost use Rattle.qm_space.specs.Cuboid.{greatest_value};
ghost use Rattle.qm_narrow.specs.inner.Beyond.{ReachesBeyond};

use qm_geom::{Cuboid, Plane};

/// Whether a cuboid reaches in front of a plane.
pub(crate) fn reaches(cuboid: &Cuboid, plane: &Plane) -> bool
    ensures { IsTrue result ↔ (pos 0 <ℤ greatest_value plane.now cuboid.now) }
{
    cuboid.greatest_value(plane) > 0
}

/// Whether it reaches in front of each of some planes.
pub(crate) fn reaches_all(cuboid: &Cuboid, planes: &[Plane]) -> bool
    ensures { IsTrue result ↔ ReachesBeyond cuboid.now planes.now }
{
    planes.iter().all(|plane| cuboid.greatest_value(plane) > 0)
}
