//! On which side of faces a point lies.

ghost use Rattle.std.specs.Prelude.{◌≡◌, ◌<◌, not, pos, length};
ghost use Rattle.std.specs.Bool.{MatchBool};
ghost use Rattle.std.specs.Ordering.{int_cmp};
ghost use Rattle.qm_space.specs.Plane.{value};
ghost use Rattle.qm_wind.specs.Clipped.{is_front};
ghost use Rattle.qm_solids.specs.Outward.{outward_of, outward_planes, AreNumberedIn};
ghost use Rattle.qm_solids.specs.Holding.{IsInside, IsInFrontOfNone};
ghost use Rattle.qm_brush.specs.inner.Fullness.{solid_behind};

use qm_geom::{Plane, Point};
use qm_solids::FaceRef;
use qm_wind::Side;
use std::cmp::Ordering;

/// Whether a point is in front of no outward plane of these faces.
pub(crate) fn is_in_front_of_none(faces: &[FaceRef], at: &Point, planes: &[Plane]) -> bool
    requires numbered { AreNumberedIn planes.now faces.now }
    ensures { MatchBool result (IsInFrontOfNone (outward_planes planes.now faces.now) at.now)
        (IsInFrontOfNone (outward_planes planes.now faces.now) at.now → ⊥) }
{
    for face in faces {
        if outer_side(face, at, planes).is_gt() {
            return false;
        }
    }
    true
}

/// Whether a point is strictly behind all outward planes of these faces.
pub(crate) fn is_inside(faces: &[FaceRef], at: &Point, planes: &[Plane]) -> bool
    requires numbered { AreNumberedIn planes.now faces.now }
    ensures { MatchBool result (IsInside (solid_behind planes.now faces.now) at.now)
        (IsInside (solid_behind planes.now faces.now) at.now → ⊥) }
{
    for face in faces {
        if outer_side(face, at, planes).is_ge() {
            return false;
        }
    }
    true
}

/// The side of a face's outward plane on which a point lies.
fn outer_side(face: &FaceRef, at: &Point, planes: &[Plane]) -> Ordering
    requires { face.now.plane < length planes.now }
    ensures { result ≡ int_cmp (value (outward_of planes.now face.now) at.now) (pos 0) }
{
    let side = planes[face.plane as usize].side(at);
    if face.out_is_front {
        side
    } else {
        side.reverse()
    }
}

/// The side of a face's plane on which its solid lies.
pub fn inner_side(face: &FaceRef) -> Side
    ensures { is_front result ≡ not face.now.out_is_front }
{
    if face.out_is_front {
        Side::Back
    } else {
        Side::Front
    }
}
