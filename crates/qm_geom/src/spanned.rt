//! What three points in thousandths of a map unit span.

ghost use Rattle.std.specs.Prelude.{IfSome};
ghost use Rattle.qm_space.specs.Point.{thousandths_point, AreThousandths};
ghost use Rattle.qm_space.specs.Multiple.{IsPositiveMultiple};
ghost use Rattle.qm_space.specs.ThreePoints.{spanned_plane};
ghost use Rattle.qm_space.specs.inner.SpannedSizes.{IsWithinReach};
ghost use Rattle.qm_geom.specs.inner.Lowest.{IsLowestAnswer, IsLowestFault};

use crate::plane::Plane;
use crate::through_fault::ThroughFault;
use crate::unreduced::UnreducedPlane;
use crate::whole::whole_point;

/// The plane that the points span, in lowest terms. Across an axis, it is that of the second point's coordinate.
pub(crate) fn in_lowest_terms(
    p0: [i32; 3],
    p1: [i32; 3],
    p2: [i32; 3],
) -> Result<(Plane, bool), ThroughFault>
    requires p0_in_cube { AreThousandths p0 }
    requires p1_in_cube { AreThousandths p1 }
    requires p2_in_cube { AreThousandths p2 }
    ensures { IsLowestAnswer (spanned_plane (thousandths_point p0) (thousandths_point p1) (thousandths_point p2)) result }
{
    let spanned = UnreducedPlane::outward(p0, p1, p2).in_thousandths();
    if !spanned.has_normal() {
        return Err(ThroughFault::NoNormal);
    }
    match spanned.axis() {
        Some(axis) => Ok((axis.plane_at(p1), spanned.leads_positive())),
        None => less_known_factor(p0, p1, p2).in_lowest_terms(),
    }
}

/// Why the points span no plane that can be brought to lowest terms, if they span none. No factor is looked for where the
/// normal lies along an axis, or is small before.
pub(crate) fn fault(p0: [i32; 3], p1: [i32; 3], p2: [i32; 3]) -> Option<ThroughFault>
    requires p0_in_cube { AreThousandths p0 }
    requires p1_in_cube { AreThousandths p1 }
    requires p2_in_cube { AreThousandths p2 }
    ensures { IsLowestFault (spanned_plane (thousandths_point p0) (thousandths_point p1) (thousandths_point p2)) result }
{
    let spanned = UnreducedPlane::outward(p0, p1, p2).in_thousandths();
    if !spanned.has_normal() {
        return Some(ThroughFault::NoNormal);
    }
    match spanned.axis() {
        Some(_) => None,
        None => less_known_factor(p0, p1, p2).fault(),
    }
}

/// A plane of which the one that they span is a multiple: that of whole points, where they are whole.
fn less_known_factor(p0: [i32; 3], p1: [i32; 3], p2: [i32; 3]) -> UnreducedPlane
    requires p0_in_cube { AreThousandths p0 }
    requires p1_in_cube { AreThousandths p1 }
    requires p2_in_cube { AreThousandths p2 }
    ensures multiple { IsPositiveMultiple (spanned_plane (thousandths_point p0) (thousandths_point p1) (thousandths_point p2)) result }
    ensures near { IsWithinReach result }
{
    match of_whole_points(p0, p1, p2) {
        Some(plane) => plane,
        None => UnreducedPlane::outward(p0, p1, p2).in_thousandths(),
    }
}

/// The plane over three points that are whole, in map units.
fn of_whole_points(p0: [i32; 3], p1: [i32; 3], p2: [i32; 3]) -> Option<UnreducedPlane>
    requires p0_in_cube { AreThousandths p0 }
    requires p1_in_cube { AreThousandths p1 }
    requires p2_in_cube { AreThousandths p2 }
    ensures { IfSome result (λ plane. IsPositiveMultiple (spanned_plane (thousandths_point p0) (thousandths_point p1) (thousandths_point p2)) plane × IsWithinReach plane) }
{
    Some(UnreducedPlane::outward(whole_point(p0)?, whole_point(p1)?, whole_point(p2)?))
}
