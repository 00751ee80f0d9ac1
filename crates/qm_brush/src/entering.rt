//! Faces, as the planes of a book that they lie on.

ghost use Rattle.std.specs.Prelude.{◌≡◌, ◌<◌, ◌+◌, ◌-◌, ◌^◌, List, ◌++◌, length, map, IfOk, OnErr, All, IsTrue};
ghost use Rattle.qm_space.specs.Point.{AreThousandths};
ghost use Rattle.qm_space.specs.Reduced.{leads_positive};
ghost use Rattle.qm_mapfile.specs.Face.{HasPlane, face_plane};
ghost use Rattle.qm_grammar.specs.Valid.{IsValidFace};
ghost use Rattle.qm_solids.specs.declared.face.FaceRef.{FaceRef};
ghost use Rattle.qm_drawn.specs.Planes.{plane_of_face};
ghost use Rattle.qm_brush.specs.inner.Entered.{AreFirstEntered, IsFaceEntered, AreFacesEntered};

use qm_geom::{Plane, PlaneBook};
use qm_mapfile::Face;
use qm_solids::FaceRef;
use std::alloc::AllocError;

/// Adds the faces of a brush to a list. Their planes enter the book, in their order; where memory runs out, first ones
/// of them.
pub(crate) fn enter_faces(
    into: &mut Vec<FaceRef>,
    faces: &[Face],
    book: &mut PlaneBook,
) -> Result<(), AllocError>
    requires valid { All IsValidFace faces.now }
    requires room { length book.old + length faces.now < 2 ^ 32 - 1 }
    ensures ok { IfOk result (λ _. AreFacesEntered face_plane faces.now into.old.items into.new.items book.old book.new) }
    ensures err { OnErr result (AreFirstEntered book.old (map plane_of_face faces.now) book.new) }
    ensures longer { (more : List FaceRef) × (into.new.items ≡ into.old.items ++ more) }
{
    for face in faces {
        enter_face(into, face, book)?;
    }
    Ok(())
}

/// Adds one face. Where memory runs out, all stays as it was.
fn enter_face(into: &mut Vec<FaceRef>, face: &Face, book: &mut PlaneBook) -> Result<(), AllocError>
    requires coordinates { All AreThousandths face.now.points }
    requires plane { HasPlane face.now }
    requires room { length book.old < 2 ^ 32 - 1 }
    ensures ok { IfOk result (λ _. IsFaceEntered (face_plane face.now) into.old.items into.new.items book.old book.new) }
    ensures same_faces { OnErr result (into.new.items ≡ into.old.items) }
    ensures same_book { OnErr result (book.new ≡ book.old) }
{
    enter_side(into, plane_of_face(face), book)
}

/// Adds a face of this plane and flag. Where memory runs out, all stays as it was.
pub(crate) fn enter_side(
    into: &mut Vec<FaceRef>,
    side: (Plane, bool),
    book: &mut PlaneBook,
) -> Result<(), AllocError>
    requires leads { IsTrue (leads_positive side.0) }
    requires room { length book.old < 2 ^ 32 - 1 }
    ensures ok { IfOk result (λ _. IsFaceEntered side into.old.items into.new.items book.old book.new) }
    ensures same_faces { OnErr result (into.new.items ≡ into.old.items) }
    ensures same_book { OnErr result (book.new ≡ book.old) }
{
    let (plane, out_is_front) = side;
    into.reserve(1)?;
    let plane = book.number(plane)?;
    into.push(FaceRef {
        plane,
        out_is_front,
    })?;
    Ok(())
}

/// The plane of a face, and whether outward is its front.
pub(crate) fn plane_of_face(face: &Face) -> (Plane, bool)
    requires coordinates { All AreThousandths face.now.points }
    requires plane { HasPlane face.now }
    ensures value { result ≡ face_plane face.now }
    ensures leads { IsTrue (leads_positive result.0) }
{
    let [first, second, third] = face.points;
    Plane::through(first, second, third).unwrap()
}
