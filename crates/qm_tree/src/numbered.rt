ghost use Rattle.std.specs.Prelude.{◌≡◌, ◌↔◌, List, length, IfOk, IsTrue};
ghost use Rattle.qm_partition.specs.declared.node.Leaf.{Leaf};
ghost use Rattle.qm_partition.specs.Partition.{Partition};
ghost use Rattle.qm_partition.specs.Numbering.{AreNumbered};
ghost use Rattle.qm_partition.specs.inner.RootChild.{root_child};

use qm_partition::{Child, Node};
use std::alloc::{AllocError, Global};

/// Whether nodes are numbered as those of a tree with so many leaves: a walk that visits a node, then its front, then
/// its back, meets all nodes and leaves in the order of their numbers.
pub fn are_numbered(alloc: Global, nodes: &[Node], leaves: u64) -> Result<bool, AllocError>
    ensures { IfOk result (λ numbered. (all : List Leaf) → length all ≡ leaves → (IsTrue numbered ↔ ((shape : Partition) × AreNumbered shape nodes.now all))) }
{
    let mut due = Vec::new(alloc);
    due.push(first_child(nodes))?;
    let mut next_node = 0;
    let mut next_leaf = 0;
    while let Some(child) = due.pop() {
        match child {
            Child::Leaf(leaf) => {
                if leaf != next_leaf || leaf >= leaves {
                    return Ok(false);
                }
                next_leaf += 1;
            }
            Child::Node(n) => {
                if n != next_node || n >= nodes.len() as u64 {
                    return Ok(false);
                }
                let node = nodes[n as usize];
                due.push(node.back)?;
                due.push(node.front)?;
                next_node += 1;
            }
        }
    }
    Ok(next_node == nodes.len() as u64 && next_leaf == leaves)
}

/// The child with which a walk begins.
fn first_child(nodes: &[Node]) -> Child
    ensures { result ≡ root_child nodes.now }
{
    if nodes.is_empty() {
        Child::Leaf(0)
    } else {
        Child::Node(0)
    }
}
