ghost use Rattle.std.specs.Prelude.{◌≡◌};
ghost use Rattle.qm_surface.specs.Surface.{piece_of};

use crate::boundary::Boundary;
use crate::owners::Owner;
use crate::part::Part;
use qm_wind::{Pane, Side};
use std::marker::Model;

/// A piece of a face: the leaf that is not solid, the brush and its face by their places, and the polygon with its plane turned
/// to the leaf.
#[derive(Drop)]
pub struct FacePiece {
    pub leaf: u64,
    pub brush: u64,
    pub face: u32,
    pub pane: Pane,
}

impl Model for FacePiece {
    ghost use Rattle.qm_surface.specs.Surface.{FacePiece};

    ghost Value = { FacePiece };

    ghost view = { λ piece. record { leaf = piece.leaf; brush = piece.brush; face = piece.face; winding = piece.pane.winding; into = piece.pane.into } };
}

impl FacePiece {
    /// The piece of an owner.
    pub(crate) fn of(boundary: Boundary, owner: Owner, part: Part) -> FacePiece
        ensures { result ≡ piece_of boundary.leaf boundary.side owner part }
    {
        let side = if boundary.side {
            Side::Back
        } else {
            Side::Front
        };
        FacePiece {
            leaf: boundary.leaf,
            brush: owner.brush,
            face: owner.face,
            pane: Pane::entering(Box::into_inner(part.winding), side),
        }
    }
}
