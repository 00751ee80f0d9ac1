//! A tree whose halves are built beside one another: it is the tree that is built cell by cell, and the one half comes while the
//! other is held.

ghost use Rattle.qm_solids.specs.InBook.{IsBookOf};

use qm_brush::{BrushList, brushes};
use qm_build::{HalvesGate, build, build_halves};
use qm_geom::PlaneBook;
use qm_map::parse;
use qm_tree::{Child, Leaf, Node, Tree};
use std::alloc::AllocError;
use std::hint::spin_loop;
use std::sync::atomic::{AtomicU64, Ordering};
use std::test::Fail;
use std::thread::Threads;
use test_texts::boxes_on_both_sides;

/// How often the gate looks, at most, before it says that a half is alone.
const LOOKS: u64 = 10_000_000;

/// A gate that holds the first half of a cell with no such cell above it until the other half has come.
#[derive(Drop)]
struct FirstHeld {
    fronts: AtomicU64,
    backs: AtomicU64,
    deeper: AtomicU64,
    alone: AtomicU64,
}

impl FirstHeld {
    fn new() -> FirstHeld {
        FirstHeld {
            fronts: AtomicU64::new(0),
            backs: AtomicU64::new(0),
            deeper: AtomicU64::new(0),
            alone: AtomicU64::new(0),
        }
    }

    /// Waits until a half has come; false where it had not at any of so many looks.
    fn has_come(half: &AtomicU64) -> bool {
        for _ in 0..LOOKS {
            if half.load(Ordering::SeqCst) != 0 {
                return true;
            }
            spin_loop();
        }
        false
    }

    /// Whether each half came once, none was held to the end, and none of a smaller cell came.
    fn have_both_come(&self) -> bool {
        self.fronts.load(Ordering::SeqCst) == 1
            && self.backs.load(Ordering::SeqCst) == 1
            && self.deeper.load(Ordering::SeqCst) == 0
            && self.alone.load(Ordering::SeqCst) == 0
    }
}

impl HalvesGate for FirstHeld {
    fn at(&self, depth: u8, front: bool) {
        let (own, other) = if front {
            (&self.fronts, &self.backs)
        } else {
            (&self.backs, &self.fronts)
        };
        if depth != 0 {
            self.deeper.fetch_add(1, Ordering::SeqCst);
            return;
        }
        own.fetch_add(1, Ordering::SeqCst);
        if !FirstHeld::has_come(other) {
            self.alone.store(1, Ordering::SeqCst);
        }
    }
}

fn are_same(child: Child, other: Child) -> bool {
    match (child, other) {
        (Child::Node(n), Child::Node(m)) => n == m,
        (Child::Leaf(n), Child::Leaf(m)) => n == m,
        _ => false,
    }
}

fn is_same_node(node: &Node, other: &Node) -> bool {
    node.plane == other.plane
        && are_same(node.front, other.front)
        && are_same(node.back, other.back)
}

fn is_same_leaf(leaf: &Leaf, other: &Leaf) -> bool {
    leaf.contents == other.contents && leaf.filled == other.filled
}

/// Whether two trees have the same nodes.
fn have_same_nodes(tree: &Tree, other: &Tree) -> bool {
    let mut same = tree.nodes() == other.nodes();
    for n in 0..tree.nodes() {
        same &= n < other.nodes() && is_same_node(&tree.node(n), &other.node(n));
    }
    same
}

/// Whether two trees have the same leaves.
fn have_same_leaves(tree: &Tree, other: &Tree) -> bool {
    let mut same = tree.leaves() == other.leaves();
    for n in 0..tree.leaves() {
        same &= n < other.leaves() && is_same_leaf(&tree.leaf(n), &other.leaf(n));
    }
    same
}

/// Whether two trees have the same nodes and leaves.
pub(crate) fn is_same_tree(tree: &Tree, other: &Tree) -> bool {
    have_same_nodes(tree, other) && have_same_leaves(tree, other)
}

/// Whether the tree of brushes is built in halves as it is cell by cell, and both halves came in time.
fn is_built_in_halves<R: AllocGlobal + Threads + Sync>(
    rt: &R,
    list: &BrushList,
    book: &PlaneBook,
) -> Result<bool, AllocError>
    requires filled { IsBookOf book.now list.now }
{
    let gate = FirstHeld::new();
    let tree = build(rt.alloc(), list, book)?;
    let halved = build_halves(rt, rt.alloc(), list, book, &gate)?;
    Ok(tree.nodes() > 0 && is_same_tree(&tree, &halved) && gate.have_both_come())
}

#[test]
fn halves_are_built_beside_one_another(rt: HostRuntime) -> Result<(), Fail> {
    let text = boxes_on_both_sides(rt.alloc())?;
    let mut right = false;
    if let Ok(map) = parse(rt.alloc(), text.as_bytes()) {
        let mut book = PlaneBook::new(rt.alloc());
        let list = brushes(rt.alloc(), &map, &mut book)?;
        right = is_built_in_halves(&rt, &list, &book)?;
    }
    assert!(rt; right);
    Ok(())
}
