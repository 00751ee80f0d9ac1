//! Whether the planes of a tree's nodes are near.

ghost use Rattle.std.specs.Prelude.{◌≤◌, ◌<◌, ◌↔◌, All, IsTrue, get_or};
ghost use Rattle.qm_partition.specs.Counting.{node_count, node_planes};
ghost use Rattle.qm_spans.specs.SegmentTrace.{FitsTraces, MeetsCube};
ghost use Rattle.qm_spans.specs.inner.NearNodes.{IsNearNode};

use qm_tree::Tree;

/// How far a plane can be that has a point of the closed cube: three components of a normal, times the cube's extent.
const FARTHEST: u64 = 3 * (1 << 26) * 32768;

/// Whether the planes of all nodes are no farther than that.
pub(crate) fn are_near(tree: &Tree) -> bool
    ensures value { IsTrue result ↔ FitsTraces tree.now }
    ensures near { All (MeetsCube tree.now) (node_planes tree.now.shape) → IsTrue result }
{
    for n in 0..tree.nodes() {
        if !is_near(tree, n) {
            return false;
        }
    }
    true
}

/// Whether the plane of a node is no farther.
fn is_near(tree: &Tree, n: u64) -> bool
    requires { n < node_count tree.now.shape }
    ensures value { IsTrue result ↔ IsNearNode tree.now n }
    ensures near { MeetsCube tree.now (get_or (node_planes tree.now.shape) n 0) → IsTrue result }
{
    let node = tree.node(n);
    let plane = tree.plane(node.plane);
    plane.d.unsigned_abs() <= FARTHEST
}
