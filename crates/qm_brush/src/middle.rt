//! A point that lies inside most brushes: the middle of a cuboid that has what faces leave of the cube.

ghost use Rattle.std.specs.Prelude.{◌≡◌, ◌<◌, true, pos, length};
ghost use Rattle.qm_space.specs.Point.{IsInCube, IsWithinExtent};
ghost use Rattle.qm_solids.specs.Outward.{AreNumberedIn};
ghost use Rattle.qm_solids.specs.Holding.{IsFull};
ghost use Rattle.qm_brush.specs.inner.Fullness.{solid_behind};

use crate::sides::is_inside;
use qm_geom::{Cuboid, Plane, Point};
use qm_solids::FaceRef;
use qm_space::WORLD_EXTENT;

/// A plane through the origin whose value is a point's x; so too for y and z.
const ACROSS_X: Plane = Plane {
    nx: 1,
    ny: 0,
    nz: 0,
    d: 0,
};

const ACROSS_Y: Plane = Plane {
    nx: 0,
    ny: 1,
    nz: 0,
    d: 0,
};

const ACROSS_Z: Plane = Plane {
    nx: 0,
    ny: 0,
    nz: 1,
    d: 0,
};

/// Whether the middle of what faces leave of the cube is strictly behind all faces: if so, they are full. Where it is not, they
/// go over what they left once more, of which slanted ones leave less.
pub(crate) fn has_middle_inside(faces: &[FaceRef], planes: &[Plane]) -> bool
    requires numbered { AreNumberedIn planes.now faces.now }
    ensures { result ≡ true → IsFull (solid_behind planes.now faces.now) }
{
    let left = left_of(Cuboid::whole(), faces, planes);
    if is_middle_inside(&left, faces, planes) {
        return true;
    }
    is_middle_inside(&left_of(left, faces, planes), faces, planes)
}

/// Whether the middle of a cuboid is in the cube and strictly behind all faces: if so, they are full.
fn is_middle_inside(cuboid: &Cuboid, faces: &[FaceRef], planes: &[Plane]) -> bool
    requires numbered { AreNumberedIn planes.now faces.now }
    ensures { result ≡ true → IsFull (solid_behind planes.now faces.now) }
{
    let [x, y, z] = sums_of_ends(cuboid);
    if !is_in_cube(x, y, z) {
        return false;
    }
    is_inside(faces, &Point { x, y, z, w: 2 }, planes)
}

/// A cuboid that has what faces leave of another one. It is only looked at for a point to try.
fn left_of(cuboid: Cuboid, faces: &[FaceRef], planes: &[Plane]) -> Cuboid
    requires numbered { AreNumberedIn planes.now faces.now }
{
    let mut left = cuboid;
    for face in faces {
        left = left.tightened(&inward_plane(face, planes));
    }
    left
}

/// A face's plane, turned inward.
fn inward_plane(face: &FaceRef, planes: &[Plane]) -> Plane
    requires { face.now.plane < length planes.now }
{
    let plane = planes[face.plane as usize];
    if face.out_is_front {
        plane.flipped()
    } else {
        plane
    }
}

/// The sum of both ends of a cuboid across each axis: its middle, twice.
fn sums_of_ends(cuboid: &Cuboid) -> [i64; 3] {
    [
        sum_of_ends(cuboid, &ACROSS_X),
        sum_of_ends(cuboid, &ACROSS_Y),
        sum_of_ends(cuboid, &ACROSS_Z),
    ]
}

/// The sum of the least and the greatest value that a plane has in a cuboid.
fn sum_of_ends(cuboid: &Cuboid, plane: &Plane) -> i64 {
    let least = cuboid.least_value(plane);
    let greatest = cuboid.greatest_value(plane);
    least.saturating_add(greatest)
}

/// Whether the point of half of these numbers is strictly inside the cube.
fn is_in_cube(x: i64, y: i64, z: i64) -> bool
    ensures { result ≡ true → IsInCube (record { x = x; y = y; z = z; w = pos 2 }) }
{
    if !is_within_extent(x) {
        return false;
    }
    if !is_within_extent(y) {
        return false;
    }
    is_within_extent(z)
}

/// Whether half of a number lies strictly between the world's extent and its opposite.
fn is_within_extent(twice: i64) -> bool
    ensures { result ≡ true → IsWithinExtent twice (pos 2) }
{
    let end = 2 * i64::from(WORLD_EXTENT);
    -end < twice && twice < end
}
