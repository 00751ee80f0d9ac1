ghost use Rattle.std.specs.Prelude.{◌<◌, ◌^◌, List, [], IfOk};
ghost use Rattle.qm_space.specs.Book.{AreBookPlanes};
ghost use Rattle.qm_solids.specs.Solid.{Solid};
ghost use Rattle.qm_solids.specs.InBook.{solids_in, IsBookOf};
ghost use Rattle.qm_partition.specs.Counting.{node_count};
ghost use Rattle.qm_partition.specs.Ways.{HasPoints};
ghost use Rattle.qm_solid_tree.specs.Division.{Divides};
ghost use Rattle.qm_solid_tree.specs.GivesContents.{GivesContents};
ghost use Rattle.qm_solid_tree.specs.TreeOf.{IsTreeOf};
ghost use Rattle.qm_build.specs.inner.Waiting.{IsWalk};

use crate::division::walk_of_cell;
use crate::gate::HalvesGate;
use crate::halves::walk_in_halves;
use qm_brush::BrushList;
use qm_geom::PlaneBook;
use qm_partition::Visit;
use qm_split::Fragments;
use qm_tree::Tree;
use std::alloc::{AllocError, Global};
use std::thread::Threads;

/// The most nodes that a tree has.
const MOST_NODES: u64 = 9_223_372_036_854_775_807;

/// The tree that the brushes of a list define with the book that was filled with their planes. Its planes are the whole
/// book, also those that no node names.
pub fn build(alloc: Global, list: &BrushList, book: &PlaneBook) -> Result<Tree, AllocError>
    requires { IsBookOf book.now list.now }
    ensures tree { IfOk result (λ tree. IsTreeOf (solids_in book.now list.now) book.now tree) }
    ensures points { IfOk result HasPoints }
    ensures contents { IfOk result (λ tree. GivesContents tree (solids_in book.now list.now)) }
    ensures few { IfOk result (λ tree. node_count tree.shape < 2 ^ 63) }
{
    let fragments = Fragments::of(alloc, list, book)?;
    let walk = walk_of_cell(alloc, fragments, book)?;
    tree_of_walk(alloc, book, walk)
}

/// The same tree, where both halves of a large cell are built beside one another, each of which passes by the gate.
pub fn build_halves<R: Threads + Sync, B: HalvesGate + Sync>(
    rt: &R,
    alloc: Global,
    list: &BrushList,
    book: &PlaneBook,
    gate: &B,
) -> Result<Tree, AllocError>
    requires filled { IsBookOf book.now list.now }
    ensures tree { IfOk result (λ tree. IsTreeOf (solids_in book.now list.now) book.now tree) }
    ensures points { IfOk result HasPoints }
    ensures contents { IfOk result (λ tree. GivesContents tree (solids_in book.now list.now)) }
    ensures few { IfOk result (λ tree. node_count tree.shape < 2 ^ 63) }
{
    let fragments = Fragments::of_halves(rt, alloc, list, book)?;
    let walk = walk_in_halves(rt, alloc, book, gate, 0, fragments)?;
    tree_of_walk(alloc, book, walk)
}

/// The tree with the planes of a book, of what a walk meets in the partition into which solids divide the whole cube.
fn tree_of_walk(alloc: Global, book: &PlaneBook, walk: Vec<Visit>) -> Result<Tree, AllocError>
    requires planes { AreBookPlanes book.now }
    requires walk { (solids : List Solid) × IsWalk (Divides solids book.now []) walk.items }
    ensures tree { IfOk result (λ tree. (solids : List Solid) → IsWalk (Divides solids book.now []) walk.items → IsTreeOf solids book.now tree) }
    ensures few { IfOk result (λ tree. node_count tree.shape < 2 ^ 63) }
{
    let planes = Vec::from_slice(alloc, book.planes())?;
    let tree = Tree::joined_of(alloc, planes, walk)?;
    // No memory has more: a child is a number with a sign in a tree file.
    if tree.nodes() > MOST_NODES {
        return Err(AllocError);
    }
    Ok(tree)
}
