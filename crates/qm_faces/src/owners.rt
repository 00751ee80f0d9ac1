//! Owners of points, and the faces by which they own them.

ghost use Rattle.std.specs.Prelude.{◌≡◌, ◌<◌, ◌^◌, length};
ghost use Rattle.std.specs.List.{position_from};
ghost use Rattle.qm_surface.specs.Owner.{is_inner, is_towards};

use qm_solids::FaceRef;
use std::marker::Model;

/// A brush, and one of its faces.
#[derive(Clone, Copy)]
pub(crate) struct Owner {
    pub(crate) brush: u64,
    pub(crate) face: u32,
}

impl Model for Owner {
    ghost use Rattle.qm_surface.specs.Owner.{FaceOwner};

    ghost Value = { FaceOwner };

    ghost view = { λ owner. record { brush = owner.brush; face = owner.face } };

    ghost inverse = { λ owner. record { brush = owner.brush; face = owner.face } };
}

/// Whether a side of a face's plane is its inner one.
fn is_inner(face: &FaceRef, side: bool) -> bool
    ensures { result ≡ is_inner face.now side }
{
    if side {
        !face.out_is_front
    } else {
        face.out_is_front
    }
}

/// Whether a face lies on a plane, with a side of it inside.
fn is_towards(plane: u32, side: bool, face: &FaceRef) -> bool
    ensures { result ≡ is_towards plane side face.now }
{
    face.plane == plane && is_inner(face, side)
}

/// The place of the first face that does.
pub(crate) fn first_towards(plane: u32, side: bool, faces: &[FaceRef]) -> Option<u32>
    requires few { length faces.now < 2 ^ 32 }
    ensures { result ≡ position_from (is_towards plane side) 0 faces.now }
{
    for i in 0..faces.len() {
        if is_towards(plane, side, &faces[i]) {
            return Some(i as u32);
        }
    }
    None
}
