//! Cutting the parts of a contact by all that may own points of it.

ghost use Rattle.std.specs.Prelude.{◌≡◌, ◌<◌, ◌++◌, length, map, option_to_list, All, IfOk, OnOk};
ghost use Rattle.qm_solids.specs.InBook.{IsBookOf};
ghost use Rattle.qm_surface.specs.Owner.{FaceOwner};
ghost use Rattle.qm_surface.specs.Surface.{piece_of};
ghost use Rattle.qm_faces.specs.inner.Cuts.{IsCutFor, AreCutFor};

use crate::boundary::Boundary;
use crate::carving::{carve, carve_all};
use crate::face_piece::FacePiece;
use crate::owners::Owner;
use crate::part::Part;
use qm_brush::BrushList;
use qm_geom::Plane;
use std::alloc::AllocError;

/// Adds the pieces of an owner.
fn add_inners(
    inners: Vec<Part>,
    boundary: Boundary,
    owner: Owner,
    pieces: &mut Vec<FacePiece>,
) -> Result<(), AllocError>
    ensures { OnOk result (pieces.new.items ≡ pieces.old.items ++ map (piece_of boundary.leaf boundary.side owner) inners.items) }
{
    for inner in inners {
        pieces.push(FacePiece::of(boundary, owner, inner))?;
    }
    Ok(())
}

/// Adds the piece of an owner, if it has one.
fn add_inner(
    inner: Option<Part>,
    boundary: Boundary,
    owner: Owner,
    pieces: &mut Vec<FacePiece>,
) -> Result<(), AllocError>
    ensures { OnOk result (pieces.new.items ≡ pieces.old.items ++ map (piece_of boundary.leaf boundary.side owner) (option_to_list inner)) }
{
    if let Some(inner) = inner {
        pieces.push(FacePiece::of(boundary, owner, inner))?;
    }
    Ok(())
}

/// Cuts one part for an owner, as below: what it leaves takes its place in the list.
fn cut_one(
    list: &BrushList,
    planes: &[Plane],
    boundary: Boundary,
    owner: Owner,
    rest: Vec<Part>,
    pieces: &mut Vec<FacePiece>,
) -> Result<Vec<Part>, AllocError>
    requires book { IsBookOf planes.now list.now }
    requires brush { owner.brush < length list.now }
    requires one { length rest.items ≡ 1 }
    ensures { IfOk result (λ left. IsCutFor planes.now list.now boundary owner rest.items left.items pieces.old.items pieces.new.items) }
{
    let mut left = rest;
    let Some(part) = left.pop() else {
        unreachable!()
    };
    let faces = list.faces(owner.brush);
    let inner = carve(part, faces, boundary.plane, planes, &mut left)?;
    add_inner(inner, boundary, owner, pieces)?;
    Ok(left)
}

/// Cuts parts for one owner: adds what it has, and answers what it leaves.
fn cut_for(
    list: &BrushList,
    planes: &[Plane],
    boundary: Boundary,
    owner: Owner,
    rest: Vec<Part>,
    pieces: &mut Vec<FacePiece>,
) -> Result<Vec<Part>, AllocError>
    requires book { IsBookOf planes.now list.now }
    requires brush { owner.brush < length list.now }
    ensures { IfOk result (λ left. IsCutFor planes.now list.now boundary owner rest.items left.items pieces.old.items pieces.new.items) }
{
    if rest.len() == 1 {
        return cut_one(list, planes, boundary, owner, rest, pieces);
    }
    let carved = carve_all(rest, list.faces(owner.brush), boundary.plane, planes)?;
    add_inners(carved.inner, boundary, owner, pieces)?;
    Ok(carved.left)
}

/// Cuts parts for all owners, in their order, and adds the pieces of each.
pub(crate) fn cut_all(
    list: &BrushList,
    planes: &[Plane],
    boundary: Boundary,
    owners: &[Owner],
    rest: Vec<Part>,
    pieces: &mut Vec<FacePiece>,
) -> Result<(), AllocError>
    requires book { IsBookOf planes.now list.now }
    requires brushes { All (λ (owner : FaceOwner). owner.brush < length list.now) owners.now }
    ensures { OnOk result (AreCutFor planes.now list.now boundary owners.now rest.items pieces.old.items pieces.new.items) }
{
    let mut rest = rest;
    for owner in owners {
        if rest.is_empty() {
            return Ok(());
        }
        rest = cut_for(list, planes, boundary, *owner, rest, pieces)?;
    }
    Ok(())
}
