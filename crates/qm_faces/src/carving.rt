//! Cutting parts by the faces of one brush.

ghost use Rattle.std.specs.Prelude.{◌≡◌, ◌<◌, length, IfOk};
ghost use Rattle.qm_space.specs.Plane.{flipped};
ghost use Rattle.qm_solids.specs.Outward.{outward_of, AreNumberedIn};
ghost use Rattle.qm_surface.specs.Cutting.{cutters, AreCarved};
ghost use Rattle.qm_faces.specs.inner.Cuts.{IsCutByFace, IsCarvedBy};

use crate::part::{Part, push_some};
use qm_geom::Plane;
use qm_solids::FaceRef;
use std::alloc::AllocError;

/// What parts leave in front of the faces of a brush, and what they have behind all of them.
#[derive(Drop)]
pub(crate) struct Carved {
    pub(crate) left: Vec<Part>,
    pub(crate) inner: Vec<Part>,
}

/// The plane of a face, turned inward.
fn inward_plane(face: &FaceRef, planes: &[Plane]) -> Plane
    requires { face.now.plane < length planes.now }
    ensures { result ≡ flipped (outward_of planes.now face.now) }
{
    let plane = planes[face.plane as usize];
    if face.out_is_front {
        plane.flipped()
    } else {
        plane
    }
}

/// Cuts a part by a face, unless the face lies on the plane of the part: what is in front of the face is left, and what is
/// behind goes on.
fn cut_by_face(
    part: Part,
    face: &FaceRef,
    plane: u32,
    planes: &[Plane],
    left: &mut Vec<Part>,
) -> Result<Option<Part>, AllocError>
    requires { face.now.plane < length planes.now }
    ensures { IfOk result (λ inner. IsCutByFace planes.now plane face.now part inner left.old.items left.new.items) }
{
    if face.plane == plane {
        return Ok(Some(part));
    }
    part.cut(&inward_plane(face, planes), left)
}

/// Cuts a part by the faces of a brush: what is in front of one is left, and what is behind all of them is answered.
pub(crate) fn carve(
    part: Part,
    faces: &[FaceRef],
    plane: u32,
    planes: &[Plane],
    left: &mut Vec<Part>,
) -> Result<Option<Part>, AllocError>
    requires { AreNumberedIn planes.now faces.now }
    ensures { IfOk result (λ inner. IsCarvedBy planes.now plane faces.now part inner left.old.items left.new.items) }
{
    let mut part = part;
    for face in faces {
        match cut_by_face(part, face, plane, planes, left)? {
            Some(inner) => part = inner,
            None => return Ok(None),
        }
    }
    Ok(Some(part))
}

/// The same of some parts, one after another.
pub(crate) fn carve_all(
    rest: Vec<Part>,
    faces: &[FaceRef],
    plane: u32,
    planes: &[Plane],
) -> Result<Carved, AllocError>
    requires { AreNumberedIn planes.now faces.now }
    ensures { IfOk result (λ carved. AreCarved (cutters planes.now plane faces.now) rest.items carved.left.items carved.inner.items) }
{
    let alloc = *rest.allocator();
    let mut left = Vec::new(alloc);
    let mut inner = Vec::new(alloc);
    for part in rest {
        let found = carve(part, faces, plane, planes, &mut left)?;
        push_some(&mut inner, found)?;
    }
    Ok(Carved { left, inner })
}
