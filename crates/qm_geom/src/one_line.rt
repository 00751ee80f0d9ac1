ghost use Rattle.std.specs.Prelude.{◌↔◌, IsTrue};
ghost use Rattle.qm_space.specs.Point.{thousandths_point, AreThousandths};
ghost use Rattle.qm_space.specs.Line.{AreOnOneLine};

use crate::unreduced::UnreducedPlane;

/// Whether three points in thousandths of a map unit lie on one line.
pub fn are_on_one_line(p0: [i32; 3], p1: [i32; 3], p2: [i32; 3]) -> bool
    requires p0_in_cube { AreThousandths p0 }
    requires p1_in_cube { AreThousandths p1 }
    requires p2_in_cube { AreThousandths p2 }
    ensures { IsTrue result ↔ AreOnOneLine (thousandths_point p0) (thousandths_point p1) (thousandths_point p2) }
{
    !UnreducedPlane::outward(p0, p1, p2).has_normal()
}
