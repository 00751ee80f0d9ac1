//! Corners that are whole points.

ghost use Rattle.std.specs.Prelude.{IfSome};
ghost use Rattle.qm_space.specs.Coordinates.{HasSmallCoordinates};
ghost use Rattle.qm_narrow.specs.inner.Trace.{IsWholeAt};

use qm_geom::Corner;

/// The whole point that a corner is where its denominator is 1, as those of planes across the axes are; no division is made.
pub(crate) fn whole_corner(corner: &Corner) -> Option<[i32; 3]>
    requires { HasSmallCoordinates corner.now }
    ensures { IfSome result (λ at. IsWholeAt corner.now at) }
{
    let (x, weight) = corner.fraction(0);
    if weight > 1 {
        return None;
    }
    let (y, _) = corner.fraction(1);
    let (z, _) = corner.fraction(2);
    Some([x as i32, y as i32, z as i32])
}
