//! The pairs of leaves that touch at a node.

ghost use Rattle.std.specs.Prelude.{◌≡◌, ◌++◌, [], map, OnOk};
ghost use Rattle.qm_contacts.specs.inner.Pieces.{touching_at};
ghost use Rattle.qm_portal.specs.inner.Pushes.{IsChildOf};
ghost use Rattle.qm_portal.specs.inner.Walks.{IsRowAdded, AreRowsAdded, ArePairsAdded, AreEmpty};

use crate::piece::{Buffers, DuePolygon, Piece};
use crate::pushing::push_down;
use crate::touching::Touching;
use qm_tree::{Child, Node, Tree};
use qm_wind::Winding;
use std::alloc::AllocError;
use std::mem;

/// Adds the pairs that touch at a node: the section is pushed down its front, and each piece down its back.
pub(crate) fn add_pairs(
    tree: &Tree,
    n: u64,
    node: &Node,
    section: Box<Winding>,
    buffers: &mut Buffers,
    pairs: &mut Vec<Touching>,
) -> Result<(), AllocError>
    requires front { IsChildOf tree.now node.now.front }
    requires back { IsChildOf tree.now node.now.back }
    requires empty { AreEmpty buffers.old }
    ensures pairs { OnOk result (ArePairsAdded tree.now n node.now section.value pairs.old.items pairs.new.items) }
    ensures empty { OnOk result (AreEmpty buffers.new) }
{
    let mut fronts = mem::replace(&mut buffers.fronts, Vec::new(*pairs.allocator()));
    let polygon = DuePolygon {
        child: node.front,
        winding: section,
    };
    push_down(tree, polygon, &mut buffers.due, &mut fronts)?;
    add_rows(tree, n, node.back, &mut fronts, buffers, pairs)?;
    buffers.fronts = fronts;
    Ok(())
}

/// Adds the pairs of all leaves in front of a node that have a piece of its section, and empties their list.
fn add_rows(
    tree: &Tree,
    n: u64,
    back: Child,
    fronts: &mut Vec<Piece>,
    buffers: &mut Buffers,
    pairs: &mut Vec<Touching>,
) -> Result<(), AllocError>
    requires child { IsChildOf tree.now back }
    requires empty { AreEmpty buffers.old }
    ensures rows { OnOk result (AreRowsAdded tree.now n back fronts.old.items pairs.old.items pairs.new.items) }
    ensures none { OnOk result (fronts.new.items ≡ []) }
    ensures empty { OnOk result (AreEmpty buffers.new) }
{
    for front in fronts.drain(..) {
        add_row(tree, n, back, front, buffers, pairs)?;
    }
    Ok(())
}

/// Adds the pairs of one leaf in front of a node.
fn add_row(
    tree: &Tree,
    n: u64,
    back: Child,
    front: Piece,
    buffers: &mut Buffers,
    pairs: &mut Vec<Touching>,
) -> Result<(), AllocError>
    requires child { IsChildOf tree.now back }
    requires empty { AreEmpty buffers.old }
    ensures row { OnOk result (IsRowAdded tree.now n back front pairs.old.items pairs.new.items) }
    ensures empty { OnOk result (AreEmpty buffers.new) }
{
    let Piece { leaf, winding } = front;
    let polygon = DuePolygon {
        child: back,
        winding,
    };
    push_down(tree, polygon, &mut buffers.due, &mut buffers.pieces)?;
    move_pieces(n, leaf, &mut buffers.pieces, pairs)?;
    Ok(())
}

/// Moves the pieces behind a node of a leaf in front to the pairs.
fn move_pieces(
    n: u64,
    front: u64,
    pieces: &mut Vec<Piece>,
    pairs: &mut Vec<Touching>,
) -> Result<(), AllocError>
    ensures pairs { OnOk result (pairs.new.items ≡ pairs.old.items ++ map (touching_at n front) pieces.old.items) }
    ensures none { OnOk result (pieces.new.items ≡ []) }
{
    for piece in pieces.drain(..) {
        let Piece { leaf, winding } = piece;
        pairs.push(Touching {
            node: n,
            front,
            back: leaf,
            winding,
        })?;
    }
    Ok(())
}
