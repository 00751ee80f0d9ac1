ghost use Rattle.std.specs.Prelude.{◌≡◌, ◌<◌, ◌≤◌, ◌*◌, ◌^◌, pos, ◌<ℤ◌, ◌≤ℤ◌, unsigned_abs};
ghost use Rattle.qm_numbers.specs.Rounding.{IsRoundedDown, IsRoundedUp, IsNearest};
ghost use Rattle.qm_geom.specs.inner.SmallCoordinate.{IsSmallCoordinate};

/// The greatest whole number that is at most the fraction.
pub fn rounded_down(over: i128, under: i128) -> i64
    requires under_positive { pos 0 <ℤ under }
    requires fraction_small { unsigned_abs over ≤ 2 ^ 44 * unsigned_abs under }
    ensures exact { IsRoundedDown over under result }
    ensures size { unsigned_abs result ≤ 2 ^ 44 }
{
    over.div_euclid(under) as i64
}

/// The least whole number that is at least the fraction.
pub(crate) fn rounded_up(over: i128, under: i128) -> i64
    requires under_positive { pos 0 <ℤ under }
    requires over_small { unsigned_abs over < 2 ^ 127 }
    requires fraction_small { unsigned_abs over ≤ 2 ^ 44 * unsigned_abs under }
    ensures exact { IsRoundedUp over under result }
    ensures size { unsigned_abs result ≤ 2 ^ 44 }
{
    -rounded_down(-over, under)
}

/// A coordinate of at most 65,536 in absolute value, rounded down.
pub(crate) fn coordinate_below(over: i128, under: i128) -> i32
    requires { IsSmallCoordinate over under }
    ensures { IsRoundedDown over under result }
{
    rounded_down(over, under) as i32
}

/// A coordinate of at most 65,536 in absolute value, rounded up.
pub(crate) fn coordinate_above(over: i128, under: i128) -> i32
    requires { IsSmallCoordinate over under }
    ensures { IsRoundedUp over under result }
{
    rounded_up(over, under) as i32
}

/// A coordinate of at most 65,536 in absolute value, rounded to the nearest whole number; of two that
/// are equally near, to the one farther from 0.
pub(crate) fn nearest_coordinate(over: i128, under: i128) -> i32
    requires { IsSmallCoordinate over under }
    ensures { IsNearest over under result }
{
    if over < 0 {
        -nearest_from_zero(-over, under)
    } else {
        nearest_from_zero(over, under)
    }
}

/// The nearest whole number for a fraction that is not negative: the half is added, and the sum is
/// rounded down.
fn nearest_from_zero(over: i128, under: i128) -> i32
    requires not_negative { pos 0 ≤ℤ over }
    requires small { IsSmallCoordinate over under }
    ensures exact { IsNearest over under result }
    ensures size { unsigned_abs result ≤ 65536 }
{
    rounded_down(2 * over + under, 2 * under) as i32
}
