//! Numbering the visits of a walk: the nodes and leaves of its tree.

ghost use Rattle.std.specs.Prelude.{◌≡◌, ◌≤◌, reverse, vec_len, IfOk, OnOk};
ghost use Rattle.qm_partition.specs.Partition.{Partition};
ghost use Rattle.qm_partition.specs.Numbering.{AreNumbered};
ghost use Rattle.qm_partition.specs.Visits.{visits};
ghost use Rattle.qm_tree.specs.inner.TakesTwo.{TakesTwo};

use qm_partition::{Child, Leaf, Node, Visit};
use std::alloc::{AllocError, Global};

/// The numbered nodes and leaves of a walk that is given backwards, the last visit first. A node finds its children among
/// those that wait, its front on top.
pub(crate) fn numbered_parts(
    alloc: Global,
    backwards: &[Visit],
) -> Result<(Vec<Node>, Vec<Leaf>), AllocError>
    requires { (shape : Partition) × (reverse backwards.now ≡ visits shape) }
    ensures { (shape : Partition) → reverse backwards.now ≡ visits shape → IfOk result (λ parts. AreNumbered shape parts.0.items parts.1.items) }
{
    let mut next_node = backwards.len() / 2;
    let mut next_leaf = next_node + 1;
    let mut waiting = Vec::new(alloc);
    let mut nodes = Vec::with_capacity(alloc, next_node)?;
    let mut leaves = Vec::with_capacity(alloc, next_leaf)?;
    for visit in backwards {
        match *visit {
            Visit::Leaf(leaf) => {
                next_leaf -= 1;
                leaves.push(leaf)?;
                waiting.push(Child::Leaf(next_leaf as u64))?;
            }
            Visit::Node(plane) => {
                next_node -= 1;
                add_node(&mut waiting, &mut nodes, plane, next_node as u64)?;
            }
        }
    }
    nodes.reverse();
    leaves.reverse();
    Ok((nodes, leaves))
}

/// Adds a node: it takes the two children that wait on top, its front first, and waits in their place.
fn add_node(
    waiting: &mut Vec<Child>,
    nodes: &mut Vec<Node>,
    plane: u32,
    number: u64,
) -> Result<(), AllocError>
    requires { 2 ≤ vec_len waiting.old }
    ensures { OnOk result (TakesTwo plane number waiting.old.items waiting.new.items nodes.old.items nodes.new.items) }
{
    let front = waiting.pop().unwrap();
    let back = waiting.pop().unwrap();
    nodes.push(Node { plane, front, back })?;
    waiting.push(Child::Node(number))?;
    Ok(())
}
