//! Normals of planes through three whole points, before they are brought to lowest terms.

ghost use Rattle.std.specs.Prelude.{◌≡◌, ◌≤◌, ◌+ℤ◌, unsigned_abs};
ghost use Rattle.qm_space.specs.Bounds.{whole_normal_bound};
ghost use Rattle.qm_space.specs.Point.{whole_point, AreCoordinates};
ghost use Rattle.qm_space.specs.Vector.{normal_of};
ghost use Rattle.qm_space.specs.ThreePoints.{outward_plane};
ghost use Rattle.qm_geom.specs.Vectors.{direction_of, HasSmallComponents};
ghost use Rattle.qm_narrow.specs.inner.Look.{look_product_bound, look_bound};

use qm_geom::Vector;

/// That of the plane through three whole points; zero where they lie on one line.
pub(crate) fn normal_through(at: [i32; 3], from: [i32; 3], to: [i32; 3]) -> Vector
    requires at_in_cube { AreCoordinates at }
    requires from_in_cube { AreCoordinates from }
    requires to_in_cube { AreCoordinates to }
    ensures exact { direction_of result ≡ normal_of (outward_plane (whole_point at) (whole_point from) (whole_point to)) }
    ensures size { HasSmallComponents result whole_normal_bound }
{
    let first = Vector::between(from, at);
    let second = Vector::between(from, to);
    first.cross(&second)
}

/// The sum of the three numbers.
pub(crate) fn sum(numbers: &Vector) -> i64
    requires { HasSmallComponents numbers.now look_product_bound }
    ensures exact { result ≡ (numbers.now.x +ℤ numbers.now.y) +ℤ numbers.now.z }
    ensures size { unsigned_abs result ≤ look_bound }
{
    numbers.x + numbers.y + numbers.z
}
