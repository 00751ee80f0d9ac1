//! The walk through all cells of a tree.

ghost use Rattle.std.specs.Prelude.{◌≡◌, List, Bool, IfOk, OnOk};
ghost use Rattle.qm_partition.specs.declared.node.Child.TheVariants.{Node as NodeChild};
ghost use Rattle.qm_contacts.specs.inner.Due.{DueCellBelow, IsDueCell, cell_due_of, ComesToTouchings, ComesToOutside};
ghost use Rattle.qm_portal.specs.inner.Walks.{MayBeDueCell, IsVisited, AreEmpty};

use crate::cell::DueCell;
use crate::pairs::add_pairs;
use crate::piece::Buffers;
use crate::touching::Touching;
use qm_tree::{Child, Tree};
use std::alloc::{AllocError, Global};

/// What a walk through cells has found: touching pairs in order, and of each leaf whether it touches the outside.
#[derive(Drop)]
pub(crate) struct Found {
    pub(crate) pairs: Vec<Touching>,
    pub(crate) outside: Vec<bool>,
}

/// What there is below a cell. The cells that are due stand on the heap, the next one last.
pub(crate) fn found_below(alloc: Global, tree: &Tree, cell: DueCell) -> Result<Found, AllocError>
    requires { MayBeDueCell tree.now cell }
    ensures touchings { IfOk result (λ found. (entry : DueCellBelow) → cell_due_of entry ≡ cell → IsDueCell tree.now entry → ComesToTouchings tree.now.planes entry found.pairs.items) }
    ensures outside { IfOk result (λ found. (entry : DueCellBelow) → cell_due_of entry ≡ cell → IsDueCell tree.now entry → ComesToOutside tree.now entry found.outside.items) }
{
    let mut pairs = Vec::new(alloc);
    let mut outside = Vec::with_capacity(alloc, tree.leaves() as usize)?;
    let mut due = Vec::new(alloc);
    due.push(cell)?;
    let mut buffers = Buffers {
        due: Vec::new(alloc),
        fronts: Vec::new(alloc),
        pieces: Vec::new(alloc),
    };
    while let Some(cell) = due.pop() {
        visit(tree, cell, &mut due, &mut buffers, &mut pairs, &mut outside)?;
    }
    Ok(Found { pairs, outside })
}

/// Visits a cell: at a leaf it is found whether it touches the outside, and at a node the touching pairs there; then the
/// cells of both children are due, the front next.
fn visit(
    tree: &Tree,
    cell: DueCell,
    due: &mut Vec<DueCell>,
    buffers: &mut Buffers,
    pairs: &mut Vec<Touching>,
    outside: &mut Vec<bool>,
) -> Result<(), AllocError>
    requires known { MayBeDueCell tree.now cell }
    requires empty { AreEmpty buffers.old }
    ensures visited { OnOk result (IsVisited tree.now cell due.old.items due.new.items pairs.old.items pairs.new.items outside.old.items outside.new.items) }
    ensures empty { OnOk result (AreEmpty buffers.new) }
{
    match cell.child {
        Child::Leaf(_) => {
            outside.push(cell.has_walls())?;
            Ok(())
        }
        Child::Node(n) => {
            visit_node(tree, n, cell, due, buffers, pairs)?;
            Ok(())
        }
    }
}

/// Visits the cell of a node.
fn visit_node(
    tree: &Tree,
    n: u64,
    cell: DueCell,
    due: &mut Vec<DueCell>,
    buffers: &mut Buffers,
    pairs: &mut Vec<Touching>,
) -> Result<(), AllocError>
    requires known { MayBeDueCell tree.now cell }
    requires node { cell.child ≡ NodeChild n }
    requires empty { AreEmpty buffers.old }
    ensures visited { OnOk result ((row : List Bool) → IsVisited tree.now cell due.old.items due.new.items pairs.old.items pairs.new.items row row) }
    ensures empty { OnOk result (AreEmpty buffers.new) }
{
    let node = tree.node(n);
    let plane = tree.plane(node.plane);
    let section = cell.section(*due.allocator(), &plane)?;
    let halves = cell.split(&node, &plane)?;
    due.push(halves.back)?;
    due.push(halves.front)?;
    add_pairs(tree, n, &node, section, buffers, pairs)?;
    Ok(())
}
