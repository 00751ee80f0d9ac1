ghost use Rattle.std.specs.Prelude.{◌≡◌, ◌<◌, ◌++◌, ◌∷◌, List, [], length, IfOk, OnOk, Contains, MatchOption};
ghost use Rattle.std.specs.Bool.{MatchBool};
ghost use Rattle.qm_contents.specs.declared.contents.Contents.{Contents};
ghost use Rattle.qm_solids.specs.declared.face.FaceRef.{FaceRef};
ghost use Rattle.qm_solids.specs.Holding.{IsFull};
ghost use Rattle.qm_solids.specs.Outward.{outward_of, outward_planes, AreNumberedIn};
ghost use Rattle.qm_split.specs.Pieces.{ArePiecesInCell};
ghost use Rattle.qm_split.specs.inner.Parts.{IsPartIn};
ghost use Rattle.qm_split.specs.inner.FacePieces.{solid_behind, IsFacePiece, HasNoFacePoint, HasAllBehind, LeavesAllBehind};

use crate::contender::{Body, Contender, Part, least_of};
use crate::piece::{Piece, numbered, push_some};
use qm_brush::inner_side;
use qm_contents::Contents;
use qm_geom::{Cuboid, Plane, PlaneBook};
use qm_solids::FaceRef;
use qm_wind::Winding;
use std::alloc::{AllocError, Global};
use std::sync::Arc;

/// What a full solid is to the cube, by its faces.
pub(crate) fn part_in_cube(
    alloc: Global,
    contents: Contents,
    faces: &[FaceRef],
    book: &PlaneBook,
) -> Result<Part, AllocError>
    requires numbered { AreNumberedIn book.now faces.now }
    requires full { IsFull (solid_behind book.now faces.now contents) }
    ensures { IfOk result (IsPartIn book.now [] (solid_behind book.now faces.now contents)) }
{
    let _planes = book.len();
    let pieces = pieces_in_cube(alloc, faces, book)?;
    let Some(least) = least_of(&pieces) else {
        return Ok(Part::Containing(contents));
    };
    let outward = outward_planes(alloc, faces, book)?;
    let cuboid = cuboid_behind(&outward);
    let outward = Arc::new(alloc, outward)?;
    let body = Box::new(
        alloc,
        Body {
            cuboid,
            outward,
            pieces,
        },
    )?;
    Ok(Part::Kept(Contender {
        contents,
        least,
        body,
    }))
}

/// The outward planes of faces.
fn outward_planes(
    alloc: Global,
    faces: &[FaceRef],
    book: &PlaneBook,
) -> Result<Vec<Plane>, AllocError>
    requires numbered { AreNumberedIn book.now faces.now }
    ensures { IfOk result (λ planes. planes.items ≡ outward_planes book.now faces.now) }
{
    let mut planes = Vec::with_capacity(alloc, faces.len())?;
    for face in faces {
        planes.push(outward_of(face, book))?;
    }
    Ok(planes)
}

/// A cuboid that has all of the cube that is in front of none of these planes. They go over it twice, since slanted ones leave
/// less where the others have been.
fn cuboid_behind(outward: &[Plane]) -> Cuboid
    ensures { HasAllBehind result outward.now }
{
    let once = left_behind(Cuboid::whole(), outward);
    left_behind(once, outward)
}

/// A cuboid that has all of the cube in another one that is in front of none of these planes.
fn left_behind(cuboid: Cuboid, outward: &[Plane]) -> Cuboid
    ensures { LeavesAllBehind cuboid outward.now result }
{
    let mut left = cuboid;
    for face in outward {
        left = left.tightened(&face.flipped());
    }
    left
}

/// The outward plane of a face.
fn outward_of(face: &FaceRef, book: &PlaneBook) -> Plane
    requires numbered { face.now.plane < length book.now }
    ensures { result ≡ outward_of book.now face.now }
{
    let plane = book.plane(face.plane);
    if face.out_is_front {
        plane
    } else {
        plane.flipped()
    }
}

/// What the cube has of faces of a solid.
fn pieces_in_cube(
    alloc: Global,
    faces: &[FaceRef],
    book: &PlaneBook,
) -> Result<Vec<Piece>, AllocError>
    requires numbered { AreNumberedIn book.now faces.now }
    ensures { IfOk result (λ pieces. (contents : Contents) → IsFull (solid_behind book.now faces.now contents) →
        ArePiecesInCell book.now [] (solid_behind book.now faces.now contents) pieces.items) }
{
    let _planes = book.len();
    let mut pieces = Vec::new(alloc);
    for face in faces {
        let winding = face_in_cube(alloc, face.plane, faces, book)?;
        push_some(&mut pieces, numbered(alloc, face.plane, winding)?)?;
    }
    Ok(pieces)
}

/// What the cube has of the plane of a number behind those faces that lie on other planes.
fn face_in_cube(
    alloc: Global,
    number: u32,
    faces: &[FaceRef],
    book: &PlaneBook,
) -> Result<Option<Winding>, AllocError>
    requires numbered { AreNumberedIn book.now faces.now }
    requires number { number < length book.now }
    ensures { IfOk result (λ part. MatchOption part (HasNoFacePoint book.now number faces.now) (IsFacePiece book.now number faces.now)) }
{
    match Winding::on(alloc, &book.plane(number))? {
        Some(whole) => keep_behind_all(whole, number, faces, book),
        None => Ok(None),
    }
}

/// What a winding on the plane of a number has behind those faces that lie on other planes.
fn keep_behind_all(
    winding: Winding,
    number: u32,
    faces: &[FaceRef],
    book: &PlaneBook,
) -> Result<Option<Winding>, AllocError>
    requires numbered { AreNumberedIn book.now faces.now }
    ensures { IfOk result (λ part. IsFacePiece book.now number [] winding →
        MatchOption part (HasNoFacePoint book.now number faces.now) (IsFacePiece book.now number faces.now)) }
{
    let _corners = winding.len();
    let mut left = winding;
    for face in faces {
        if !cut_behind(&mut left, number, face, book)? {
            return Ok(None);
        }
    }
    Ok(Some(left))
}

/// Cuts a winding on the plane of a number down to what it has behind a face, if the face lies on another plane. `false` exactly
/// where nothing is left.
fn cut_behind(
    winding: &mut Winding,
    number: u32,
    face: &FaceRef,
    book: &PlaneBook,
) -> Result<bool, AllocError>
    requires numbered { face.now.plane < length book.now }
    ensures { IfOk result (λ left. (done : List FaceRef) → IsFacePiece book.now number done winding.old →
        MatchBool left (IsFacePiece book.now number (done ++ face.now ∷ []) winding.new) (HasNoFacePoint book.now number (done ++ face.now ∷ []))) }
{
    if face.plane == number {
        return Ok(true);
    }
    winding.cut(&book.plane(face.plane), inner_side(face))
}
