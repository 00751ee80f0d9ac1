//! Corners in fine units, of which a unit has 1024: whole points may be too coarse.

ghost use Rattle.std.specs.Prelude.{◌≡◌, ◌≤◌, pos, ◌*ℤ◌, unsigned_abs};
ghost use Rattle.qm_numbers.specs.Rounding.{IsRoundedDown};
ghost use Rattle.qm_space.specs.Bounds.{normal_bound};
ghost use Rattle.qm_space.specs.Cube.{IsInClosedCube};
ghost use Rattle.qm_space.specs.Point.{Point, IsCoordinate, AreCoordinates};
ghost use Rattle.qm_space.specs.Coordinates.{HasSmallCoordinates};
ghost use Rattle.qm_geom.specs.inner.SmallCoordinate.{IsSmallCoordinate};
ghost use Rattle.qm_narrow.specs.inner.Trace.{fine_units, IsWholeAt, IsFineOf};

use qm_geom::{Corner, Vector, rounded_down};

/// A corner's coordinates in fine units, by a division each.
pub(crate) fn fine_of(corner: &Corner) -> Vector
    requires small { HasSmallCoordinates corner.now }
    requires in_cube { IsInClosedCube corner.now }
    ensures { IsFineOf corner.now result }
{
    let (x, weight) = corner.fraction(0);
    let (y, _) = corner.fraction(1);
    let (z, _) = corner.fraction(2);
    Vector {
        x: fine(x, weight),
        y: fine(y, weight),
        z: fine(z, weight),
    }
}

/// A coordinate in fine units, rounded down.
fn fine(over: i128, under: i128) -> i64
    requires { IsSmallCoordinate over under }
    ensures exact { IsRoundedDown (fine_units *ℤ over) under result }
    ensures size { unsigned_abs result ≤ normal_bound }
{
    rounded_down(1024 * over, under)
}

/// Those of a corner that is a whole point.
pub(crate) fn fine_at(at: &[i32; 3]) -> Vector
    requires { AreCoordinates at.now }
    ensures { (corner : Point) → IsWholeAt corner at.now → IsFineOf corner result }
{
    Vector {
        x: in_fine_units(at[0]),
        y: in_fine_units(at[1]),
        z: in_fine_units(at[2]),
    }
}

/// A whole number of units, in fine units.
fn in_fine_units(units: i32) -> i64
    requires { IsCoordinate units }
    ensures exact { result ≡ fine_units *ℤ units }
    ensures size { unsigned_abs result ≤ normal_bound }
{
    1024 * i64::from(units)
}
