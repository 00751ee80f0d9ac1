//! Trees of a million nodes in a row, each below the one before it.

use qm_contents::Contents::{self, Empty, Solid};
use qm_geom::{Plane, Point};
use qm_tree::Child::{self, Leaf as L, Node as N};
use qm_tree::{Leaf, Node, Tree};
use std::alloc::{AllocError, Global};

const NODES: u64 = 1_000_000;

/// The plane x = 8.
fn plane() -> Plane {
    match Plane::through_whole([8, 0, 0], [8, 1, 0], [8, 0, 1]) {
        Ok((plane, _)) => plane,
        Err(_) => Plane::default(),
    }
}

fn node(front: Child, back: Child) -> Node {
    Node {
        plane: 0,
        front,
        back,
    }
}

fn leaf(contents: Contents) -> Leaf {
    Leaf {
        contents,
        filled: false,
    }
}

/// Each node in front of the one before it.
fn in_front(alloc: Global) -> Result<Vec<Node>, AllocError> {
    let mut nodes = Vec::new(alloc);
    for n in 1..NODES {
        nodes.push(node(N(n), L(NODES + 1 - n)))?;
    }
    nodes.push(node(L(0), L(1)))?;
    Ok(nodes)
}

/// Each node behind the one before it.
fn behind(alloc: Global) -> Result<Vec<Node>, AllocError> {
    let mut nodes = Vec::new(alloc);
    for n in 1..NODES {
        nodes.push(node(L(n - 1), N(n)))?;
    }
    nodes.push(node(L(NODES - 1), L(NODES)))?;
    Ok(nodes)
}

/// A first leaf, and empty ones.
fn leaves(alloc: Global, first: Leaf) -> Result<Vec<Leaf>, AllocError> {
    let mut leaves = Vec::new(alloc);
    leaves.push(first)?;
    for _ in 0..NODES {
        leaves.push(leaf(Empty))?;
    }
    Ok(leaves)
}

fn row(alloc: Global, nodes: Vec<Node>, first: Leaf) -> Option<Tree> {
    let planes = [plane()].to_vec(alloc).ok()?;
    Tree::of(alloc, planes, nodes, leaves(alloc, first).ok()?).ok()
}

/// Whether the point (x, 0, 0) has the leaf of this number, to which there are so many steps.
fn leads(alloc: Global, tree: &Tree, x: i64, number: u64, steps: usize) -> Option<bool> {
    let found = tree.leaf_at(&Point {
        x,
        y: 0,
        z: 0,
        w: 1,
    });
    if number >= tree.leaves() {
        return None;
    }
    let way = tree.path(alloc, number).ok()?;
    Some(found == number && way.len() == steps)
}

/// How many nodes are left when the tree is joined.
fn nodes_left(alloc: Global, tree: Tree) -> Option<u64> {
    Some(tree.joined(alloc).ok()?.nodes())
}

fn is_row_in_front(alloc: Global) -> Option<bool> {
    let solid = row(alloc, in_front(alloc).ok()?, leaf(Solid))?;
    let empty = row(alloc, in_front(alloc).ok()?, leaf(Empty))?;
    Some(
        leads(alloc, &solid, 9, 0, NODES as usize)?
            && leads(alloc, &solid, 7, NODES, 1)?
            && nodes_left(alloc, solid)? == NODES
            && nodes_left(alloc, empty)? == 0,
    )
}

fn is_row_behind(alloc: Global) -> Option<bool> {
    let solid = row(alloc, behind(alloc).ok()?, leaf(Solid))?;
    Some(
        leads(alloc, &solid, 9, 0, 1)?
            && leads(alloc, &solid, 7, NODES, NODES as usize)?
            && nodes_left(alloc, solid)? == 1,
    )
}

#[test]
fn million_nodes_in_a_row(rt: HostRuntime) {
    let alloc = rt.alloc();
    assert!(rt; is_row_in_front(alloc) == Some(true) && is_row_behind(alloc) == Some(true));
}
