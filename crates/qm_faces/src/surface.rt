//! The pieces of all touching pairs.

ghost use Rattle.std.specs.Prelude.{◌≡◌, length, IfOk, OnOk};
ghost use Rattle.qm_solids.specs.InBook.{solids_in, IsBookOf};
ghost use Rattle.qm_solid_tree.specs.GivesContents.{GivesContentsOrIsFilled};
ghost use Rattle.qm_contacts.specs.Contacts.{AreContacts};
ghost use Rattle.qm_surface.specs.Surface.{AreFacePieces};
ghost use Rattle.qm_surface.specs.Covered.{CoverBoundary};
ghost use Rattle.qm_faces.specs.inner.Cuts.{IsPairThere, AreAddedFor, IsBoundaryOf};
ghost use Rattle.qm_faces.specs.inner.Rows.{AreOwnerRows};

use crate::boundary::{Boundary, is_boundary};
use crate::cutting::cut_all;
use crate::face_piece::FacePiece;
use crate::part::Part;
use crate::rows::{Row, owner_rows, owners_on};
use qm_brush::BrushList;
use qm_geom::{Plane, PlaneBook};
use qm_portal::{TouchList, Touching};
use qm_tree::Tree;
use std::alloc::{AllocError, Global};

/// The boundary at which the leaves of a touching pair meet, where one is rock and the other is not solid.
fn boundary_of(tree: &Tree, pair: &Touching) -> Option<Boundary>
    requires { IsPairThere tree.now pair.now }
    ensures { IsBoundaryOf tree.now pair.now result }
{
    let front = tree.leaf(pair.front);
    let back = tree.leaf(pair.back);
    let plane = tree.node(pair.node).plane;
    if is_boundary(&front, &back) {
        return Some(Boundary {
            plane,
            side: true,
            leaf: pair.back,
        });
    }
    if is_boundary(&back, &front) {
        return Some(Boundary {
            plane,
            side: false,
            leaf: pair.front,
        });
    }
    None
}

/// Adds the pieces of a touching pair.
fn add_pieces(
    list: &BrushList,
    planes: &[Plane],
    rows: &[Row],
    tree: &Tree,
    pair: &Touching,
    pieces: &mut Vec<FacePiece>,
) -> Result<(), AllocError>
    requires planes { tree.now.planes ≡ planes.now }
    requires book { IsBookOf planes.now list.now }
    requires rows { AreOwnerRows (length planes.now) list.now rows.now }
    requires pair { IsPairThere tree.now pair.now }
    ensures { OnOk result (AreAddedFor tree.now list.now pair.now pieces.old.items pieces.new.items) }
{
    let Some(boundary) = boundary_of(tree, pair) else {
        return Ok(());
    };
    let alloc = *pieces.allocator();
    let owners = owners_on(rows, boundary.plane, boundary.side);
    let mut rest = Vec::new(alloc);
    rest.push(Part::whole(alloc, &pair.winding)?)?;
    cut_all(list, planes, boundary, owners, rest, pieces)
}

/// The surface of a map, cut into pieces of the faces of its brushes: in the order of touching pairs, then of brushes, then of the
/// cutting.
pub fn faces(
    alloc: Global,
    list: &BrushList,
    book: &PlaneBook,
    tree: &Tree,
    touches: &TouchList,
) -> Result<Vec<FacePiece>, AllocError>
    requires planes { tree.now.planes ≡ book.now }
    requires filled { IsBookOf book.now list.now }
    requires gives { GivesContentsOrIsFilled tree.now (solids_in book.now list.now) }
    requires contacts { AreContacts tree.now touches.now }
    ensures pieces { IfOk result (λ pieces. AreFacePieces tree.now list.now touches.now.touchings pieces.items) }
    ensures cover { IfOk result (λ pieces. CoverBoundary tree.now list.now pieces.items) }
{
    let _planes = tree.planes();
    let planes = book.planes();
    let rows = owner_rows(alloc, list, planes)?;
    let mut pieces = Vec::new(alloc);
    for i in 0..touches.pairs() {
        add_pieces(list, planes, &rows, tree, touches.pair(i), &mut pieces)?;
    }
    Ok(pieces)
}
