//! Normals in lowest terms, without a distance.

ghost use Rattle.std.specs.Prelude.{◌≡◌, ◌<◌, ◌≤◌, ◌^◌, pos, unsigned_abs, int_div, MatchOption};
ghost use Rattle.std.specs.Int.{◌∣◌};
ghost use Rattle.qm_space.specs.Bounds.{normal_bound, whole_normal_bound};
ghost use Rattle.qm_space.specs.ThreePoints.{common_factor};
ghost use Rattle.qm_geom.specs.Vectors.{HasSmallComponents};
ghost use Rattle.qm_narrow.specs.inner.Lowest.{level, IsLowestOf, HasNoLowest};

use crate::divisor::{divisor_by_halves, odd_part};
use qm_geom::{Plane, Vector};

/// The greatest component of a plane's normal.
const GREATEST_COMPONENT: u64 = 1 << 26;

/// The plane through the origin with a normal, brought to lowest terms in 64 bits. `None` where the normal is zero, or in
/// lowest terms too large.
pub(crate) fn lowest(normal: &Vector) -> Option<Plane>
    requires { HasSmallComponents normal.now whole_normal_bound }
    ensures { MatchOption result (HasNoLowest normal.now) (IsLowestOf normal.now) }
{
    let factor = factor_of(normal);
    if factor == 0 {
        return None;
    }
    Some(Plane {
        nx: quotient(normal.x, factor)?,
        ny: quotient(normal.y, factor)?,
        nz: quotient(normal.z, factor)?,
        d: 0,
    })
}

/// The greatest number that divides all components of a normal; 0 where all are.
fn factor_of(normal: &Vector) -> u64
    requires { HasSmallComponents normal.now whole_normal_bound }
    ensures value { result ≡ common_factor (level normal.now) }
    ensures size { result < 2 ^ 63 }
{
    let of_two = divisor_by_halves(normal.x.unsigned_abs(), normal.y.unsigned_abs());
    divisor_by_halves(of_two, normal.z.unsigned_abs())
}

/// A component of a normal in lowest terms; `None` where it is too great.
fn quotient(component: i64, factor: u64) -> Option<i32>
    requires factor_positive { 0 < factor }
    requires factor_small { factor < 2 ^ 63 }
    requires divides { factor ∣ unsigned_abs component }
    ensures { MatchOption result (normal_bound < unsigned_abs (int_div component (pos factor))) (λ n. (n ≡ int_div component (pos factor)) × (unsigned_abs n ≤ normal_bound)) }
{
    let quotient = divided_exactly(component, factor);
    if quotient.unsigned_abs() > GREATEST_COMPONENT {
        return None;
    }
    Some(quotient as i32)
}

/// A number divided by one of its factors. A power of two needs no division.
fn divided_exactly(number: i64, factor: u64) -> i64
    requires factor_positive { 0 < factor }
    requires factor_small { factor < 2 ^ 63 }
    requires divides { factor ∣ unsigned_abs number }
    ensures { result ≡ int_div number (pos factor) }
{
    if odd_part(factor) == 1 {
        return number >> factor.trailing_zeros();
    }
    number / factor as i64
}
