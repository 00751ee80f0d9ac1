//! Dot products and sizes of vectors, in 64 bits.

ghost use Rattle.std.specs.Prelude.{◌≡◌, ◌≤◌, unsigned_abs};
ghost use Rattle.qm_space.specs.Bounds.{normal_bound, whole_normal_bound};
ghost use Rattle.qm_geom.specs.Vectors.{HasSmallComponents, dot};
ghost use Rattle.qm_narrow.specs.inner.Turn.{IsWithin, HasSize, dot_bound, size_bound};

use crate::multiples::product;
use qm_geom::Vector;

/// The dot product of a normal and a step.
pub(crate) fn dot(normal: &Vector, step: &Vector) -> i64
    requires normal_small { HasSmallComponents normal.now whole_normal_bound }
    requires step_small { HasSmallComponents step.now normal_bound }
    ensures exact { result ≡ dot normal.now step.now }
    ensures size { unsigned_abs result ≤ dot_bound }
{
    let of_x = product(normal.x, step.x);
    let of_y = product(normal.y, step.y);
    let of_z = product(normal.z, step.z);
    of_x + of_y + of_z
}

/// The sum of a vector's components without their signs.
pub(crate) fn size_of(vector: &Vector) -> i64
    requires { HasSmallComponents vector.now whole_normal_bound }
    ensures exact { HasSize vector.now result }
    ensures small { unsigned_abs result ≤ size_bound }
{
    let of_x = size(vector.x);
    let of_y = size(vector.y);
    let of_z = size(vector.z);
    of_x + of_y + of_z
}

/// A number without its sign.
fn size(number: i64) -> i64
    requires { unsigned_abs number ≤ whole_normal_bound }
    ensures exact { IsWithin number result }
    ensures small { unsigned_abs result ≤ whole_normal_bound }
{
    if number < 0 { -number } else { number }
}
