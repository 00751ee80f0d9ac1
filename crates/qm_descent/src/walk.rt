ghost use Rattle.std.specs.Prelude.{◌≡◌, ◌++◌, ℕ, List, IfOk, OnOk};
ghost use Rattle.qm_space.specs.Plane.{Plane};
ghost use Rattle.qm_partition.specs.declared.node.Child.TheVariants.{Node};
ghost use Rattle.qm_contacts.specs.Meeting.{leaves_below};
ghost use Rattle.qm_facets.specs.Body.{IsBody};
ghost use Rattle.qm_reach.specs.ReachedLeaves.{AreReached};
ghost use Rattle.qm_reach.specs.inner.DueBodies.{body_at, half_at_child, IsWalkedOn, MayBeDueBody};

use crate::due::DueBody;
use qm_half_spaces::Body;
use qm_tree::{Child, Tree};
use std::alloc::{AllocError, Global};

/// The leaves of a tree that a body reaches, by their numbers, ascending. Only nodes are visited in whose parts it has a point.
pub fn reached_leaves(alloc: Global, tree: &Tree, body: Body) -> Result<Vec<u64>, AllocError>
    ensures { IfOk result (λ found. (cell : List Plane) → IsBody cell body → AreReached tree.now.planes cell (leaves_below tree.now.shape 0) found.items) }
{
    // What is known of the body by itself: it is that of some cell.
    body.some_cell();
    let mut found = Vec::new(alloc);
    let mut due = Vec::new(alloc);
    due.push(DueBody {
        child: tree.root(),
        body,
    })?;
    while let Some(next) = due.pop() {
        visit(tree, next, &mut due, &mut found)?;
    }
    Ok(found)
}

/// Takes a body on: a leaf to which it came is found, and at a node its halves are due, that in front next.
fn visit(
    tree: &Tree,
    next: DueBody,
    due: &mut Vec<DueBody>,
    found: &mut Vec<u64>,
) -> Result<(), AllocError>
    requires { MayBeDueBody tree.now next }
    ensures { OnOk result (IsWalkedOn tree.now next due.old.items due.new.items found.old.items found.new.items) }
{
    let DueBody { child, body } = next;
    match child {
        Child::Leaf(leaf) => {
            found.push(leaf)?;
            Ok(())
        }
        Child::Node(n) => part(tree, n, body, due),
    }
}

/// Parts a body by the plane of a node: what is behind is due, and then what is in front.
fn part(tree: &Tree, n: u64, body: Body, due: &mut Vec<DueBody>) -> Result<(), AllocError>
    requires { MayBeDueBody tree.now (body_at body (Node n)) }
    ensures { OnOk result ((found : List ℕ) → IsWalkedOn tree.now (body_at body (Node n)) due.old.items due.new.items found found) }
{
    let node = tree.node(n);
    let plane = tree.plane(node.plane);
    let halves = body.split(&plane)?;
    push_half(due, halves.back, node.back)?;
    push_half(due, halves.front, node.front)?;
    Ok(())
}

/// Lets a half be due at a child, if there is one.
fn push_half(due: &mut Vec<DueBody>, half: Option<Body>, child: Child) -> Result<(), AllocError>
    ensures { OnOk result (due.new.items ≡ due.old.items ++ half_at_child half child) }
{
    if let Some(body) = half {
        due.push(DueBody { child, body })?;
    }
    Ok(())
}
