//! The outline of brushes beside a tree: the box of all that they hold, and the leaves that they touch.

ghost use Rattle.std.specs.Prelude.{◌≡◌, ◌<◌, List, false, length, IfOk, OnOk, MatchOption};
ghost use Rattle.qm_space.specs.Plane.{Plane as SpacePlane};
ghost use Rattle.qm_space.specs.Turned.{turned};
ghost use Rattle.qm_solids.specs.Outward.{outward_of, AreNumberedIn};
ghost use Rattle.qm_solids.specs.InBook.{solids_in, IsBookOf};
ghost use Rattle.qm_facets.specs.Body.{IsBody};
ghost use Rattle.qm_half_spaces.specs.HalfCells.{inward_of_half, cell_of_halves};
ghost use Rattle.qm_outlines.specs.HeldPoints.{HasNoFull};
ghost use Rattle.qm_outlines.specs.Outlines.{IsOutline};
ghost use Rattle.qm_outlines.specs.inner.Outlined.{IsCellAdded, IsCellTaken};
ghost use Rattle.qm_models.specs.inner.BehindFaces.{cell_behind};

use qm_brush::BrushList;
use qm_descent::reached_leaves;
use qm_geom::{Plane, PlaneBook};
use qm_half_spaces::{Body, Extents, Half};
use qm_solids::FaceRef;
use qm_tree::Tree;
use std::alloc::{AllocError, Global};

/// The box of solids, and the leaves that they touch, by their places in a tree.
#[derive(Drop)]
pub struct Outline {
    pub extents: Extents,
    pub touched: Vec<u64>,
}

/// The outline of the brushes of a list beside a tree. The book is the one that was filled with their planes. `None` exactly
/// where no brush is full.
pub fn outline_of(
    alloc: Global,
    list: &BrushList,
    book: &PlaneBook,
    tree: &Tree,
) -> Result<Option<Outline>, AllocError>
    requires filled { IsBookOf book.now list.now }
    ensures { IfOk result (λ found. MatchOption found (HasNoFull (solids_in book.now list.now))
        (λ outline. IsOutline tree.now (solids_in book.now list.now) outline.extents outline.touched.items)) }
{
    let mut outline = Outline {
        extents: Extents::none(),
        touched: Vec::new(alloc),
    };
    let mut some = false;
    for i in 0..list.len() {
        if add_solid(alloc, tree, list.faces(i), book.planes(), &mut outline)? {
            some = true;
        }
    }
    if some { Ok(Some(outline)) } else { Ok(None) }
}

/// Adds what a solid behind these faces has. Answers whether it is full.
fn add_solid(
    alloc: Global,
    tree: &Tree,
    faces: &[FaceRef],
    planes: &[Plane],
    outline: &mut Outline,
) -> Result<bool, AllocError>
    requires numbered { AreNumberedIn planes.now faces.now }
    ensures { IfOk result (λ full. IsCellTaken tree.now (cell_behind planes.now faces.now) full outline.old.extents outline.new.extents outline.old.touched.items outline.new.touched.items) }
{
    let halves = inner_halves(alloc, faces, planes)?;
    match Body::within(alloc, &halves)? {
        None => Ok(false),
        Some(body) => {
            add_body(alloc, tree, body, outline)?;
            Ok(true)
        }
    }
}

/// Adds what a body has: the box grows round it, and the leaves that it reaches are touched.
fn add_body(alloc: Global, tree: &Tree, body: Body, outline: &mut Outline) -> Result<(), AllocError>
    ensures { OnOk result ((cell : List SpacePlane) → IsBody cell body →
        IsCellAdded tree.now cell outline.old.extents outline.new.extents outline.old.touched.items outline.new.touched.items) }
{
    outline.extents = body.widened(outline.extents);
    let mut reached = reached_leaves(alloc, tree, body)?;
    outline.touched.append(&mut reached)?;
    Ok(())
}

/// The half spaces behind faces.
fn inner_halves(alloc: Global, faces: &[FaceRef], planes: &[Plane]) -> Result<Vec<Half>, AllocError>
    requires numbered { AreNumberedIn planes.now faces.now }
    ensures { IfOk result (λ halves. cell_of_halves halves.items ≡ cell_behind planes.now faces.now) }
{
    let mut halves = Vec::with_capacity(alloc, faces.len())?;
    for face in faces {
        halves.push(inner_half(face, planes))?;
    }
    Ok(halves)
}

/// The half space behind a face.
fn inner_half(face: &FaceRef, planes: &[Plane]) -> Half
    requires { face.now.plane < length planes.now }
    ensures { inward_of_half result ≡ turned false (outward_of planes.now face.now) }
{
    Half {
        plane: planes[face.plane as usize],
        front: !face.out_is_front,
    }
}
