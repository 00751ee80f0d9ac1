//! Pushing polygons down a tree, by a list of those that are due.

ghost use Rattle.std.specs.Prelude.{◌≡◌, ◌<◌, [], IfOk, OnOk};
ghost use Rattle.qm_partition.specs.declared.node.Child.TheVariants.{Node};
ghost use Rattle.qm_portal.specs.inner.Pushes.{IsChildOf, HasPieces, polygon_at, weight_at, rest_weight, IsPushed, MayBeDue, GoesDown, piece_in};

use crate::piece::{DuePolygon, Piece};
use qm_tree::{Child, Tree};
use qm_wind::{Severed, Winding};
use std::alloc::AllocError;

/// Pushes a polygon down from a child: what each leaf below has of it, in the order of the leaves. The list of those that
/// are due is empty before, and in the end.
pub(crate) fn push_down(
    tree: &Tree,
    polygon: DuePolygon,
    due: &mut Vec<DuePolygon>,
    pieces: &mut Vec<Piece>,
) -> Result<(), AllocError>
    requires child { IsChildOf tree.now polygon.child }
    requires none_due { due.old.items ≡ [] }
    requires none { pieces.old.items ≡ [] }
    ensures pieces { OnOk result (HasPieces tree.now polygon.child polygon.winding pieces.new.items) }
    ensures none_due { OnOk result (due.new.items ≡ []) }
{
    let _corners = polygon.winding.len();
    advance(tree, polygon, due, pieces)?;
    while let Some(polygon) = due.pop() {
        advance(tree, polygon, due, pieces)?;
    }
    Ok(())
}

/// Takes a polygon down to a leaf. What is cut off of it on the way is due, that in front next.
fn advance(
    tree: &Tree,
    polygon: DuePolygon,
    due: &mut Vec<DuePolygon>,
    pieces: &mut Vec<Piece>,
) -> Result<(), AllocError>
    requires { MayBeDue tree.now polygon }
    ensures { OnOk result (IsPushed tree.now polygon due.old.items due.new.items pieces.old.items pieces.new.items) }
{
    let DuePolygon { child, mut winding } = polygon;
    match descend(tree, child, &mut winding, due)? {
        None => Ok(()),
        Some(leaf) => {
            pieces.push(Piece { leaf, winding })?;
            Ok(())
        }
    }
}

/// Takes a polygon down from a child, to the leaf in which what is left of it lies; what is cut off is due. `None` where it
/// lies in a plane on the way: then no leaf has a piece of it.
fn descend(
    tree: &Tree,
    child: Child,
    winding: &mut Winding,
    due: &mut Vec<DuePolygon>,
) -> Result<Option<u64>, AllocError>
    requires { MayBeDue tree.now (polygon_at winding.old child) }
    ensures { IfOk result (λ leaf. IsPushed tree.now (polygon_at winding.old child) due.old.items due.new.items [] (piece_in leaf winding.new)) }
{
    let mut at = child;
    loop {
        match at {
            Child::Leaf(leaf) => return Ok(Some(leaf)),
            Child::Node(n) => match step_down(tree, n, winding, due)? {
                Some(to) => at = to,
                None => return Ok(None),
            },
        }
    }
}

/// Takes a polygon from a node to one of its children. Where the node's plane cuts it, what is behind is due there, and the
/// rest goes to the front. `None` where it lies in the plane.
fn step_down(
    tree: &Tree,
    n: u64,
    winding: &mut Winding,
    due: &mut Vec<DuePolygon>,
) -> Result<Option<Child>, AllocError>
    requires { MayBeDue tree.now (polygon_at winding.old (Node n)) }
    ensures goes { IfOk result (λ to. GoesDown tree.now winding.old (Node n) winding.new to due.old.items due.new.items) }
    ensures smaller { IfOk result (λ to. rest_weight tree.now to < weight_at tree.now (Node n)) }
{
    let node = tree.node(n);
    match winding.sever(&tree.plane(node.plane))? {
        Severed::Front => Ok(Some(node.front)),
        Severed::Back => Ok(Some(node.back)),
        Severed::On => Ok(None),
        Severed::Across(winding) => {
            due.push(DuePolygon {
                child: node.back,
                winding,
            })?;
            Ok(Some(node.front))
        }
    }
}
