//! Leaks and filled leaves of small generated worlds, beside all chains of leaves.

use crate::worlds::{Grid, random_world};
use qm_contents::Contents;
use qm_flood::{Flood, Origin, flood};
use qm_geom::Point;
use qm_portal::{TouchList, touches};
use qm_tree::Tree;
use std::alloc::{AllocError, Global};
use std::test::Fail;
use test_numbers::Random;
use test_worlds::tree_of;

/// Trees of more leaves have too many chains.
const MOST_LEAVES: u64 = 9;

const MOST_CHAINS: u64 = 1_000_000;

/// Whether a leaf is there, and neither solid nor sky.
fn is_passable(tree: &Tree, leaf: u64) -> bool {
    leaf < tree.leaves() && !matches!(tree.leaf(leaf).contents, Contents::Solid | Contents::Sky)
}

/// Whether the last leaf of a chain touches the outside.
fn leads_out(contacts: &TouchList, chain: &[u64]) -> bool {
    match chain.last() {
        Some(last) => *last < contacts.leaves() && contacts.outside(*last),
        None => false,
    }
}

/// Whether a chain is shorter than another, or as long and before it in the order of their leaves.
fn is_better(chain: &[u64], other: &[u64]) -> bool {
    if chain.len() != other.len() {
        return chain.len() < other.len();
    }
    for (first, second) in chain.iter().zip(other) {
        if first != second {
            return first < second;
        }
    }
    false
}

/// Adds the chains that have one leaf more, which is passable and not yet among them.
fn extend(
    alloc: Global,
    contacts: &TouchList,
    tree: &Tree,
    chain: &[u64],
    chains: &mut Vec<Vec<u64>>,
) -> Result<(), AllocError> {
    let Some(last) = chain.last() else {
        return Ok(());
    };
    if *last >= contacts.leaves() {
        return Ok(());
    }
    for next in contacts.neighbours(*last) {
        if is_passable(tree, *next) && !chain.contains(next) {
            let mut longer = Vec::from_slice(alloc, chain)?;
            longer.push(*next)?;
            chains.push(longer)?;
        }
    }
    Ok(())
}

/// The best of all chains of passable leaves from a leaf to the outside. It has no leaf where there is none.
fn best_chain(
    alloc: Global,
    contacts: &TouchList,
    tree: &Tree,
    leaf: u64,
) -> Result<Vec<u64>, AllocError> {
    let mut best = Vec::new(alloc);
    let mut chains = Vec::new(alloc);
    if is_passable(tree, leaf) {
        chains.push(Vec::from_slice(alloc, &[leaf])?)?;
    }
    for _ in 0..MOST_CHAINS {
        let Some(chain) = chains.pop() else {
            return Ok(best);
        };
        extend(alloc, contacts, tree, &chain, &mut chains)?;
        if leads_out(contacts, &chain) && (best.is_empty() || is_better(&chain, &best)) {
            best = chain;
        }
    }
    Err(AllocError)
}

/// Whether exactly those leaves are filled from which some chain leads out.
fn fills_what_leads_out(
    alloc: Global,
    contacts: &TouchList,
    tree: &Tree,
    filled: &[bool],
) -> Result<bool, AllocError> {
    let mut right = filled.len() as u64 == tree.leaves();
    for leaf in 0..filled.len() {
        let chain = best_chain(alloc, contacts, tree, leaf as u64)?;
        right &= filled[leaf] != chain.is_empty();
    }
    Ok(right)
}

/// Whether what is found of a world and an entity at a point is what all chains say. `None` where its tree is too large.
fn is_right(alloc: Global, text: &str, point: Point) -> Result<Option<bool>, AllocError> {
    let tree = tree_of(alloc, text)?;
    if tree.leaves() > MOST_LEAVES {
        return Ok(None);
    }
    let contacts = touches(alloc, &tree)?;
    let origins = [Origin { entity: 7, point }];
    let found = flood(alloc, &contacts, &tree, &origins)?;
    let leaf = tree.leaf_at(&point);
    let chain = best_chain(alloc, &contacts, &tree, leaf)?;
    let right = match found {
        Flood::NoEntity => tree.leaf(leaf).contents == Contents::Solid,
        Flood::Leak { entity, trail } => entity == 7 && trail.as_slice() == chain.as_slice(),
        Flood::Sealed(row) => {
            let mut filled = Vec::new(alloc);
            for k in 0..row.len() {
                filled.push(row.get(k))?;
            }
            chain.is_empty() && fills_what_leads_out(alloc, &contacts, &tree, &filled)?
        }
    };
    Ok(Some(right))
}

/// How many worlds are generated, and in how many at least chains are gone through.
const WORLDS: (u64, u64) = (400, 60);

#[test]
fn leaks_are_as_all_chains_say(rt: HostRuntime) -> Result<(), Fail> {
    let mut random = Random::new(9);
    let mut right = true;
    let mut tried = 0u64;
    for _ in 0..WORLDS.0 {
        let text = random_world(rt.alloc(), &mut random, Grid::Whole)?;
        let point = Point {
            x: 8 * (random.below(21) as i64 - 10),
            y: 8 * (random.below(21) as i64 - 10),
            z: 8 * (random.below(21) as i64 - 10),
            w: 1,
        };
        if let Some(is_right) = is_right(rt.alloc(), &text, point)? {
            right &= is_right;
            tried = tried.saturating_add(1);
        }
    }
    assert!(rt; right && tried >= WORLDS.1);
    Ok(())
}
