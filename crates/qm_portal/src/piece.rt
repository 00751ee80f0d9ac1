use qm_partition::Child;
use qm_wind::Winding;
use std::marker::Model;

/// What a leaf has of a polygon.
#[derive(Drop)]
pub(crate) struct Piece {
    pub(crate) leaf: u64,
    pub(crate) winding: Box<Winding>,
}

impl Model for Piece {
    ghost use Rattle.qm_contacts.specs.inner.Pieces.{LeafPiece};

    ghost Value = { LeafPiece };

    ghost view = { λ piece. record { leaf = piece.leaf; winding = piece.winding.value } };
}

/// A polygon on its way down a tree, with the child to which it came.
#[derive(Drop)]
pub(crate) struct DuePolygon {
    pub(crate) child: Child,
    pub(crate) winding: Box<Winding>,
}

impl Model for DuePolygon {
    ghost use Rattle.qm_contacts.specs.inner.Due.{DuePolygon};

    ghost Value = { DuePolygon };

    ghost view = { λ due. record { child = due.child; winding = due.winding.value } };
}

/// Lists that are used again at each node, so that they seldom take memory. Between nodes they are empty.
#[derive(Drop)]
pub(crate) struct Buffers {
    pub(crate) due: Vec<DuePolygon>,
    pub(crate) fronts: Vec<Piece>,
    pub(crate) pieces: Vec<Piece>,
}
