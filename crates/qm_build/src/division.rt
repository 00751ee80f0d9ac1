//! The walk of the division of a cell.

ghost use Rattle.std.specs.Prelude.{List, IfOk, OnOk, ◌≡◌, ◌++◌, ◌∷◌, []};
ghost use Rattle.qm_solids.specs.Solid.{Solid};
ghost use Rattle.qm_build.specs.inner.UnderWay.{AreFragments};
ghost use Rattle.qm_build.specs.inner.Visited.{IsVisited};
ghost use Rattle.qm_build.specs.inner.WalkedCells.{IsWalkOf};

use crate::top::{Top, top_of};
use qm_geom::PlaneBook;
use qm_partition::Visit;
use qm_split::{CellHalves, Fragments};
use std::alloc::{AllocError, Global};

/// What a walk meets in the partition into which solids divide the cell of fragments. The cells that wait own what they need,
/// the next one last.
pub(crate) fn walk_of_cell(
    alloc: Global,
    fragments: Fragments,
    book: &PlaneBook,
) -> Result<Vec<Visit>, AllocError>
    requires { (solids : List Solid) × AreFragments solids book.now fragments }
    ensures { IfOk result (λ walk. (solids : List Solid) → AreFragments solids book.now fragments →
        IsWalkOf solids book.now fragments walk.items) }
{
    let mut walk = Vec::new(alloc);
    let mut pending = Vec::new(alloc);
    pending.push(fragments)?;
    while let Some(fragments) = pending.pop() {
        visit(fragments, book, &mut pending, &mut walk)?;
    }
    Ok(walk)
}

/// Visits a cell: a leaf is written where no plane parts it, and else a node, both of whose sides then wait.
fn visit(
    fragments: Fragments,
    book: &PlaneBook,
    pending: &mut Vec<Fragments>,
    walk: &mut Vec<Visit>,
) -> Result<(), AllocError>
    requires { (solids : List Solid) × AreFragments solids book.now fragments }
    ensures { OnOk result ((solids : List Solid) → AreFragments solids book.now fragments →
        IsVisited solids book.now fragments pending.old.items walk.old.items pending.new.items walk.new.items) }
{
    match top_of(fragments, book)? {
        Top::Leaf(leaf) => {
            walk.push(Visit::Leaf(leaf))?;
            Ok(())
        }
        Top::Node(number, halves) => {
            walk.push(Visit::Node(number))?;
            wait(halves, pending)
        }
    }
}

/// Lets both sides of a cell wait, the front last.
pub(crate) fn wait(halves: CellHalves, pending: &mut Vec<Fragments>) -> Result<(), AllocError>
    ensures { OnOk result (pending.new.items ≡ (pending.old.items ++ halves.back ∷ []) ++ halves.front ∷ []) }
{
    pending.push(halves.back)?;
    pending.push(halves.front)?;
    Ok(())
}
