//! Planes of faces, moved outward by a box, as they enter a book.

ghost use Rattle.std.specs.Prelude.{◌≡◌, ◌<◌, ◌≤◌, ◌+◌, ◌-◌, ◌*◌, ◌^◌, List, ◌++◌, length, map, IfOk, OnErr, All, IsTrue, unsigned_abs, neg_ℤ};
ghost use Rattle.qm_space.specs.Bounds.{cube_distance_bound};
ghost use Rattle.qm_space.specs.Point.{AreThousandths};
ghost use Rattle.qm_space.specs.Reduced.{leads_positive};
ghost use Rattle.qm_space.specs.Turned.{turned};
ghost use Rattle.qm_space.specs.Cuboid.{least_value};
ghost use Rattle.qm_mapfile.specs.Face.{HasPlane};
ghost use Rattle.qm_grammar.specs.Valid.{IsValidFace};
ghost use Rattle.qm_solids.specs.declared.face.FaceRef.{FaceRef};
ghost use Rattle.qm_blocking.specs.Moved.{least_over, moved_by, IsMovingBox};
ghost use Rattle.qm_blocking.specs.MovedSolids.{moved_side, moved_plane_of_face};
ghost use Rattle.qm_brush.specs.inner.Entered.{AreFirstEntered, IsFaceEntered, AreFacesEntered};

use crate::entering::{enter_side, plane_of_face};
use qm_geom::{Cuboid, Plane, PlaneBook};
use qm_mapfile::Face;
use qm_solids::FaceRef;
use std::alloc::AllocError;

/// Adds the faces of a brush to a list, their planes moved outward by a box. These planes enter the book, in their order;
/// where memory runs out, first ones of them.
pub(crate) fn enter_moved_faces(
    into: &mut Vec<FaceRef>,
    faces: &[Face],
    cuboid: &Cuboid,
    book: &mut PlaneBook,
) -> Result<(), AllocError>
    requires valid { All IsValidFace faces.now }
    requires moving { IsMovingBox cuboid.now }
    requires room { length book.old + length faces.now < 2 ^ 32 - 1 }
    ensures ok { IfOk result (λ _. AreFacesEntered (moved_side cuboid.now) faces.now into.old.items into.new.items book.old book.new) }
    ensures err { OnErr result (AreFirstEntered book.old (map (moved_plane_of_face cuboid.now) faces.now) book.new) }
    ensures longer { (more : List FaceRef) × (into.new.items ≡ into.old.items ++ more) }
{
    for face in faces {
        enter_moved_face(into, face, cuboid, book)?;
    }
    Ok(())
}

/// Adds one face. Where memory runs out, all stays as it was.
fn enter_moved_face(
    into: &mut Vec<FaceRef>,
    face: &Face,
    cuboid: &Cuboid,
    book: &mut PlaneBook,
) -> Result<(), AllocError>
    requires coordinates { All AreThousandths face.now.points }
    requires plane { HasPlane face.now }
    requires moving { IsMovingBox cuboid.now }
    requires room { length book.old < 2 ^ 32 - 1 }
    ensures ok { IfOk result (λ _. IsFaceEntered (moved_side cuboid.now face.now) into.old.items into.new.items book.old book.new) }
    ensures same_faces { OnErr result (into.new.items ≡ into.old.items) }
    ensures same_book { OnErr result (book.new ≡ book.old) }
{
    enter_side(into, moved_side(face, cuboid), book)
}

/// The plane of a face, moved outward by a box, and whether outward is its front.
fn moved_side(face: &Face, cuboid: &Cuboid) -> (Plane, bool)
    requires coordinates { All AreThousandths face.now.points }
    requires plane { HasPlane face.now }
    requires moving { IsMovingBox cuboid.now }
    ensures value { result ≡ moved_side cuboid.now face.now }
    ensures leads { IsTrue (leads_positive result.0) }
{
    let (plane, out_is_front) = plane_of_face(face);
    (moved_outward(&plane, out_is_front, cuboid), out_is_front)
}

/// A plane, moved by a box to the side that is outward.
fn moved_outward(plane: &Plane, out_is_front: bool, cuboid: &Cuboid) -> Plane
    requires near { unsigned_abs plane.now.d ≤ cube_distance_bound }
    requires moving { IsMovingBox cuboid.now }
    ensures { result ≡ turned out_is_front (moved_by cuboid.now (turned out_is_front plane.now)) }
{
    if out_is_front {
        moved_ahead(plane, cuboid)
    } else {
        moved_ahead(&plane.flipped(), cuboid).flipped()
    }
}

/// A plane, moved by a box to its front.
fn moved_ahead(plane: &Plane, cuboid: &Cuboid) -> Plane
    requires near { unsigned_abs plane.now.d ≤ cube_distance_bound }
    requires moving { IsMovingBox cuboid.now }
    ensures { result ≡ moved_by cuboid.now plane.now }
{
    Plane {
        nx: plane.nx,
        ny: plane.ny,
        nz: plane.nz,
        d: moved_distance(plane, cuboid),
    }
}

/// The distance of a plane that a box has moved to its front: the plane's own, less the least that its normal has at a corner
/// of the box.
fn moved_distance(plane: &Plane, cuboid: &Cuboid) -> i64
    requires small { unsigned_abs (least_over cuboid.now plane.now) ≤ 3 * 2 ^ 32 }
    requires near { unsigned_abs plane.now.d ≤ cube_distance_bound }
    ensures { result ≡ neg_ℤ (least_value plane.now cuboid.now) }
{
    -cuboid.least_value(plane)
}
