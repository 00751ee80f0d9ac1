ghost use Rattle.std.specs.Prelude.{◌≡◌, Contains, IfOk, IsOk, OnOk, Option, Some, option_to_list, ◌++◌};
ghost use Rattle.qm_space.specs.Plane.{flipped};
ghost use Rattle.qm_split.specs.inner.PieceParts.{IsPartOf, AreFront, IsNumberedPiece, is_on};
ghost use Rattle.qm_split.specs.inner.Ranked.{IsRankOf};

use crate::rank::{Rank, is_axial};
use qm_geom::Plane;
use qm_wind::{Severed, Winding};
use std::alloc::{AllocError, Global};

/// What a cell has of a face of a solid, on the plane of a number.
#[derive(Drop)]
pub(crate) struct Piece {
    pub(crate) number: u32,
    pub(crate) winding: Box<Winding>,
}

/// What a piece has in front of a plane, and behind it.
#[derive(Drop)]
pub(crate) struct PieceParts {
    front: Option<Piece>,
    back: Option<Piece>,
}

/// What pieces have in front of a plane, and behind it.
#[derive(Drop)]
pub(crate) struct PieceLists {
    pub(crate) front: Vec<Piece>,
    pub(crate) back: Vec<Piece>,
}

impl Piece {
    /// Where its plane comes among candidates.
    pub(crate) fn rank(&self) -> Rank
        ensures { IsRankOf self.now result }
    {
        Rank {
            axial: is_axial(&self.winding.plane()),
            number: self.number,
        }
    }

    /// Whether it lies in a plane.
    pub(crate) fn is_on(&self, plane: &Plane) -> bool
        ensures { result ≡ is_on plane.now self.now }
    {
        let own = self.winding.plane();
        own == *plane || own == plane.flipped()
    }

    /// What it has in front of a plane, and behind it. Only where it has both is its winding cut.
    fn split(self, plane: &Plane) -> Result<PieceParts, AllocError>
        ensures front { IfOk result (λ parts. IsPartOf self plane.now parts.front) }
        ensures back { IfOk result (λ parts. IsPartOf self (flipped plane.now) parts.back) }
    {
        let _corners = self.winding.len();
        let mut piece = self;
        match piece.winding.sever(plane)? {
            Severed::Front => Ok(PieceParts {
                front: Some(piece),
                back: None,
            }),
            Severed::Back => Ok(PieceParts {
                front: None,
                back: Some(piece),
            }),
            Severed::On => Ok(PieceParts {
                front: None,
                back: None,
            }),
            Severed::Across(winding) => {
                let back = Piece {
                    number: piece.number,
                    winding,
                };
                Ok(PieceParts {
                    front: Some(piece),
                    back: Some(back),
                })
            }
        }
    }
}

/// The piece of a number, if there is a winding.
pub(crate) fn numbered(
    alloc: Global,
    number: u32,
    winding: Option<Winding>,
) -> Result<Option<Piece>, AllocError>
    ensures { IfOk result (IsNumberedPiece number winding) }
{
    match winding {
        Some(winding) => {
            let winding = Box::new(alloc, winding)?;
            Ok(Some(Piece { number, winding }))
        }
        None => Ok(None),
    }
}

/// What pieces have in front of a plane, and behind it.
pub(crate) fn split_pieces(pieces: Vec<Piece>, plane: &Plane) -> Result<PieceLists, AllocError>
    ensures front { IfOk result (λ lists. AreFront pieces.items plane.now lists.front.items) }
    ensures back { IfOk result (λ lists. AreFront pieces.items (flipped plane.now) lists.back.items) }
{
    let alloc = *pieces.allocator();
    let mut front = Vec::with_capacity(alloc, pieces.len())?;
    let mut back = Vec::with_capacity(alloc, pieces.len())?;
    for piece in pieces {
        let parts = piece.split(plane)?;
        push_some(&mut front, parts.front)?;
        push_some(&mut back, parts.back)?;
    }
    Ok(PieceLists { front, back })
}

/// Adds a piece, if there is one.
pub(crate) fn push_some(pieces: &mut Vec<Piece>, piece: Option<Piece>) -> Result<(), AllocError>
    ensures { OnOk result (pieces.new.items ≡ pieces.old.items ++ option_to_list piece) }
{
    if let Some(piece) = piece {
        pieces.push(piece)?;
    }
    Ok(())
}
