//! Coordinates of corners as whole numbers, by one division each.

ghost use Rattle.std.specs.Prelude.{◌≡◌, ◌⊎◌, ◌<◌, ◌≤◌, ◌*◌, ◌^◌, true, false, pos, ◌-ℤ◌, ◌*ℤ◌, ◌<ℤ◌, ◌≤ℤ◌, unsigned_abs};
ghost use Rattle.qm_geom.specs.inner.SmallCoordinate.{IsSmallCoordinate};

use qm_geom::rounded_down;

/// A coordinate rounded down, rounded up, and to the nearest whole number: of two that are equally near, the one farther from
/// 0.
#[derive(Clone, Copy)]
pub(crate) struct Near {
    pub(crate) below: i32,
    pub(crate) above: i32,
    pub(crate) nearest: i32,
}

impl Near {
    ghost use Rattle.qm_narrow.specs.inner.Near.{AreNear};

    /// Those of a fraction.
    pub(crate) fn of(over: i128, under: i128) -> Near
        requires { IsSmallCoordinate over under }
        ensures { AreNear over under result }
    {
        let down = rounded_down(over, under);
        let rest = rest(over, under, down);
        let below = down as i32;
        if rest <= 0 {
            return Near {
                below,
                above: below,
                nearest: below,
            };
        }
        let above = below + 1;
        if goes_up(over, under, rest) {
            return Near {
                below,
                above,
                nearest: above,
            };
        }
        Near {
            below,
            above,
            nearest: below,
        }
    }
}

/// What a fraction leaves of its numerator beside so many denominators.
fn rest(over: i128, under: i128, down: i64) -> i128
    requires over_size { unsigned_abs over ≤ 3 * 2 ^ 97 }
    requires under_size { unsigned_abs under ≤ 3 * 2 ^ 79 }
    requires down_size { unsigned_abs down ≤ 65536 }
    ensures { result ≡ over -ℤ (down *ℤ under) }
{
    let whole = times(down, under);
    over - whole
}

fn times(down: i64, under: i128) -> i128
    requires under_size { unsigned_abs under ≤ 3 * 2 ^ 79 }
    requires down_size { unsigned_abs down ≤ 65536 }
    ensures exact { result ≡ down *ℤ under }
    ensures size { unsigned_abs result ≤ 3 * 2 ^ 95 }
{
    i128::from(down) * under
}

/// Whether a fraction that leaves a rest is nearer to the number above.
fn goes_up(over: i128, under: i128, rest: i128) -> bool
    requires under_size { unsigned_abs under ≤ 3 * 2 ^ 79 }
    requires rest_size { unsigned_abs rest ≤ 3 * 2 ^ 79 }
    ensures up { result ≡ true → ((under -ℤ rest) <ℤ rest) ⊎ ((rest ≡ under -ℤ rest) × pos 0 ≤ℤ over) }
    ensures down { result ≡ false → (rest <ℤ (under -ℤ rest)) ⊎ ((rest ≡ under -ℤ rest) × over <ℤ pos 0) }
{
    let left = under - rest;
    if rest < left {
        return false;
    }
    if rest > left {
        return true;
    }
    over >= 0
}
