//! The walk from the root of a tree to the leaf just after a parting of a segment.

ghost use Rattle.std.specs.Prelude.{◌≡◌, ◌<◌, ◌+◌, ◌^◌, ◌∷◌, Some, slice_get, unsigned_abs};
ghost use Rattle.qm_partition.specs.declared.node.Node.{Node as NodeRecord};
ghost use Rattle.qm_partition.specs.Counting.{node_count};
ghost use Rattle.qm_partition.specs.Numbering.{nodes_of};
ghost use Rattle.qm_partition.specs.LeafOfPoint.{node_value};
ghost use Rattle.qm_spans.specs.SegmentTrace.{FitsTraces, IsTraceEnd, CanTrace};
ghost use Rattle.qm_spans.specs.Partings.{lowest_place};
ghost use Rattle.qm_spans.specs.ComputedSpans.{spans_from};
ghost use Rattle.qm_spans.specs.inner.NextChild.{child_on, next_child};

use crate::crossing::{crosses_between, crossing_at, is_behind, is_behind_after};
use qm_geom::Point;
use qm_partition::{Child, Node};
use qm_spans::Parting;
use qm_tree::Tree;

/// The leaf in which a segment is just after a parting, and the parting at which it leaves that leaf.
pub(crate) fn leaf_after(tree: &Tree, from: &Point, to: &Point, at: Parting) -> (u64, Parting)
    requires can { CanTrace tree.now from.now to.now }
    requires some { 0 < at.behind }
    ensures first { spans_from tree.now from.now to.now at ≡ record { leaf = result.0; to = lowest_place result.1 } ∷ spans_from tree.now from.now to.now result.1 }
    ensures some { 0 < result.1.before + result.1.behind }
{
    let mut child = tree.root();
    let mut leave = Parting {
        before: 1,
        behind: 0,
    };
    loop {
        match child {
            Child::Leaf(leaf) => return (leaf, leave),
            Child::Node(n) => {
                let next = next_child(tree, n, from, to, at, leave);
                child = next.0;
                leave = next.1;
            }
        }
    }
}

/// The child of a node in which the segment is just after a parting, and the parting at which it leaves that child at the
/// latest, where it leaves the node at the latest at `leave`.
fn next_child(
    tree: &Tree,
    n: u64,
    from: &Point,
    to: &Point,
    at: Parting,
    leave: Parting,
) -> (Child, Parting)
    requires can { CanTrace tree.now from.now to.now }
    requires there { n < node_count tree.now.shape }
    ensures { (here : NodeRecord) × (slice_get (nodes_of tree.now.shape 0 0) n ≡ Some here) × (result ≡ next_child here (node_value tree.now.planes here.plane from.now) (node_value tree.now.planes here.plane to.now) at leave) }
{
    let node = tree.node(n);
    let first = value_at_end(tree, n, from);
    let second = value_at_end(tree, n, to);
    if crosses_between(first, second, at, leave) {
        (child_on(node, is_behind(first)), crossing_at(first, second))
    } else {
        (child_on(node, is_behind_after(first, second, at)), leave)
    }
}

/// The value of a node's plane at an end.
fn value_at_end(tree: &Tree, n: u64, end: &Point) -> i128
    requires fits { FitsTraces tree.now }
    requires end { IsTraceEnd end.now }
    requires there { n < node_count tree.now.shape }
    ensures exact { (here : NodeRecord) → slice_get (nodes_of tree.now.shape 0 0) n ≡ Some here → result ≡ node_value tree.now.planes here.plane end.now }
    ensures small { unsigned_abs result < 2 ^ 64 }
{
    let node = tree.node(n);
    tree.plane(node.plane).value(end)
}

/// The child on one side of a node.
fn child_on(node: Node, behind: bool) -> Child
    ensures { result ≡ child_on node behind }
{
    if behind { node.back } else { node.front }
}
