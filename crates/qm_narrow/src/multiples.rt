//! Whether a normal is a multiple of a listed plane's, before it is brought to lowest terms.

ghost use Rattle.std.specs.Prelude.{◌≡◌, ◌≤◌, ◌*◌, ◌*ℤ◌, true, int_lt, pos, unsigned_abs};
ghost use Rattle.qm_space.specs.Bounds.{normal_bound, whole_normal_bound};
ghost use Rattle.qm_space.specs.Plane.{flipped};
ghost use Rattle.qm_geom.specs.Vectors.{HasSmallComponents};
ghost use Rattle.qm_narrow.specs.inner.FoundPlanes.{IsAlong, HasAlongAmong, HasAgainstAmong};

use qm_geom::{Plane, Vector};

/// Whether some plane's normal points where this one does.
pub(crate) fn has_along(planes: &[Plane], normal: &Vector) -> bool
    requires { HasSmallComponents normal.now whole_normal_bound }
    ensures { result ≡ true → HasAlongAmong planes.now normal.now }
{
    for plane in planes {
        if is_along(normal, plane) {
            return true;
        }
    }
    false
}

/// Whether some plane's normal points where the opposite of this one does.
pub(crate) fn has_against(planes: &[Plane], normal: &Vector) -> bool
    requires { HasSmallComponents normal.now whole_normal_bound }
    ensures { result ≡ true → HasAgainstAmong planes.now normal.now }
{
    for plane in planes {
        let turned = plane.flipped();
        if is_along(normal, &turned) {
            return true;
        }
    }
    false
}

/// Whether a normal points where a plane's does: it is a multiple of it, and their components have the same signs.
fn is_along(normal: &Vector, plane: &Plane) -> bool
    requires { HasSmallComponents normal.now whole_normal_bound }
    ensures { result ≡ true → IsAlong normal.now plane.now }
{
    if !is_multiple(normal, &plane.normal()) {
        return false;
    }
    if !are_alike(normal.x, plane.nx) || !are_alike(normal.y, plane.ny) {
        return false;
    }
    are_alike(normal.z, plane.nz)
}

/// Whether each two components of a normal are to one another as those of a plane's are. Most listed planes are told by the
/// first two.
fn is_multiple(normal: &Vector, other: &Vector) -> bool
    requires normal_small { HasSmallComponents normal.now whole_normal_bound }
    requires other_small { HasSmallComponents other.now normal_bound }
    ensures xy { result ≡ true → normal.now.x *ℤ other.now.y ≡ normal.now.y *ℤ other.now.x }
    ensures yz { result ≡ true → normal.now.y *ℤ other.now.z ≡ normal.now.z *ℤ other.now.y }
    ensures zx { result ≡ true → normal.now.z *ℤ other.now.x ≡ normal.now.x *ℤ other.now.z }
{
    if !are_equal(normal.x, other.y, normal.y, other.x)
        || !are_equal(normal.y, other.z, normal.z, other.y)
    {
        return false;
    }
    are_equal(normal.z, other.x, normal.x, other.z)
}

/// Whether two products are the same: each of a component of a normal that is not in lowest terms, and one of a plane's.
fn are_equal(first: i64, second: i64, third: i64, fourth: i64) -> bool
    requires first_small { unsigned_abs first ≤ whole_normal_bound }
    requires second_small { unsigned_abs second ≤ normal_bound }
    requires third_small { unsigned_abs third ≤ whole_normal_bound }
    requires fourth_small { unsigned_abs fourth ≤ normal_bound }
    ensures { result ≡ true → first *ℤ second ≡ third *ℤ fourth }
{
    product(first, second) == product(third, fourth)
}

/// The product of a component of a normal that is not in lowest terms, and one of a plane's. 64 bits hold it: it is at most
/// 2^58 where the world reaches 32,768.
pub(crate) fn product(first: i64, second: i64) -> i64
    requires first_small { unsigned_abs first ≤ whole_normal_bound }
    requires second_small { unsigned_abs second ≤ normal_bound }
    ensures exact { result ≡ first *ℤ second }
    ensures size { unsigned_abs result ≤ whole_normal_bound * normal_bound }
{
    first * second
}

/// Whether both numbers are below 0, or neither is.
fn are_alike(first: i64, second: i32) -> bool
    ensures { result ≡ true → int_lt first (pos 0) ≡ int_lt second (pos 0) }
{
    if first < 0 { second < 0 } else { second >= 0 }
}
