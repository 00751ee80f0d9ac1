//! Whether a brush is full: whether some point of the cube is strictly behind all its faces.

ghost use Rattle.std.specs.Prelude.{◌≡◌, ◌<◌, length, slice_index_or, IfOk};
ghost use Rattle.std.specs.Bool.{MatchBool};
ghost use Rattle.qm_space.specs.Plane.{Plane};
ghost use Rattle.qm_space.specs.Book.{AreBookPlanes, plane_at};
ghost use Rattle.qm_convex.specs.Winding.{IsConvex};
ghost use Rattle.qm_convex.specs.Sides.{HasNoneInFront};
ghost use Rattle.qm_convex.specs.Cut.{IsPartInFront};
ghost use Rattle.qm_solids.specs.Outward.{AreNumberedIn};
ghost use Rattle.qm_solids.specs.Holding.{IsFull};
ghost use Rattle.qm_brush.specs.inner.FaceParts.{inward_of, IsNarrowing, IsPartOfFace};
ghost use Rattle.qm_brush.specs.inner.Fullness.{solid_behind};

use crate::middle::has_middle_inside;
use crate::sides::{inner_side, is_inside};
use qm_geom::{Plane, Point};
use qm_solids::FaceRef;
use qm_wind::{Clip, Winding};
use std::alloc::{AllocError, Global};

/// What there is of a face in the cube and behind the faces on other planes.
#[derive(Clone, Copy)]
pub(crate) enum FacePart {
    /// Another face on its plane is turned against it, so that nothing is behind both.
    Opposed,
    /// No point.
    Missing,
    /// Some point, and no other face on its plane is turned against it.
    Present,
}

/// The middle of the cube.
const MIDDLE: Point = Point {
    x: 0,
    y: 0,
    z: 0,
    w: 1,
};

/// Whether some point of the cube is strictly behind all these faces. For most brushes a middle is such a point. It is
/// also so beside a point of a face; where the cube has no point of any face, all of it lies on one side of them.
pub(crate) fn is_full(
    alloc: Global,
    faces: &[FaceRef],
    planes: &[Plane],
) -> Result<bool, AllocError>
    requires numbered { AreNumberedIn planes.now faces.now }
    requires book { AreBookPlanes planes.now }
    ensures { IfOk result (λ full. MatchBool full (IsFull (solid_behind planes.now faces.now))
        (IsFull (solid_behind planes.now faces.now) → ⊥)) }
{
    if has_middle_inside(faces, planes) {
        return Ok(true);
    }
    for face in faces {
        match part_of_face(alloc, face, faces, planes)? {
            FacePart::Opposed => return Ok(false),
            FacePart::Present => return Ok(true),
            FacePart::Missing => {}
        }
    }
    Ok(is_inside(faces, &MIDDLE, planes))
}

/// What there is of a face.
fn part_of_face(
    alloc: Global,
    face: &FaceRef,
    faces: &[FaceRef],
    planes: &[Plane],
) -> Result<FacePart, AllocError>
    requires its_number { face.now.plane < length planes.now }
    requires numbered { AreNumberedIn planes.now faces.now }
    ensures { IfOk result (λ part. IsPartOfFace part planes.now faces.now face.now) }
{
    let mut part = match Winding::on(alloc, &planes[face.plane as usize])? {
        None => return Ok(FacePart::Missing),
        Some(part) => part,
    };
    for other in faces {
        match narrow(&mut part, face, other, planes)? {
            FacePart::Present => {}
            lost => return Ok(lost),
        }
    }
    Ok(FacePart::Present)
}

/// Cuts the part of a face down to what is behind another one, if that is on another plane, and says what there is then.
fn narrow(
    part: &mut Winding,
    face: &FaceRef,
    other: &FaceRef,
    planes: &[Plane],
) -> Result<FacePart, AllocError>
    requires convex { IsConvex part.old }
    requires numbered { other.now.plane < length planes.now }
    ensures { IfOk result (λ found. IsNarrowing found planes.now face.now other.now part.old part.new) }
{
    if other.plane == face.plane {
        if other.out_is_front == face.out_is_front {
            return Ok(FacePart::Present);
        }
        return Ok(FacePart::Opposed);
    }
    if keep_behind(part, other, planes)? {
        Ok(FacePart::Present)
    } else {
        Ok(FacePart::Missing)
    }
}

/// Cuts a winding down to what is behind a face, and says whether anything is.
fn keep_behind(part: &mut Winding, other: &FaceRef, planes: &[Plane]) -> Result<bool, AllocError>
    requires convex { IsConvex part.old }
    requires numbered { other.now.plane < length planes.now }
    ensures { IfOk result (λ some. MatchBool some
        (IsPartInFront part.new part.old (inward_of planes.now other.now))
        (HasNoneInFront part.old (inward_of planes.now other.now))) }
{
    match part.clip(&planes[other.plane as usize], inner_side(other))? {
        Clip::Gone => Ok(false),
        Clip::Whole => Ok(true),
        Clip::Cut(less) => {
            *part = less;
            Ok(true)
        }
    }
}
