//! What open chains show, by a plain walk of all of them.

use qm_bits::BitRow;
use qm_narrow::{ChainState, step};
use qm_portal::World;
use std::alloc::{AllocError, Global};

/// A chain of portals: the leaf to which it has come, the leaves that it met, and those that each of its portals may have.
#[derive(Drop)]
struct Chain {
    state: ChainState,
    at: u64,
    met: Vec<u64>,
    may_have: Vec<u64>,
}

/// The leaves that a row has.
fn leaves_of(alloc: Global, row: &BitRow) -> Result<Vec<u64>, AllocError> {
    let mut leaves = Vec::new(alloc);
    for leaf in 0..row.len() {
        if row.get(leaf) {
            leaves.push(leaf)?;
        }
    }
    Ok(leaves)
}

/// The leaves that each row has.
pub fn lists_of(alloc: Global, rows: &[BitRow]) -> Result<Vec<Vec<u64>>, AllocError> {
    let mut lists = Vec::new(alloc);
    for row in rows {
        lists.push(leaves_of(alloc, row)?)?;
    }
    Ok(lists)
}

/// The leaves that both lists have.
fn both(alloc: Global, leaves: &[u64], others: &[u64]) -> Result<Vec<u64>, AllocError> {
    let mut both = Vec::new(alloc);
    for &leaf in leaves {
        if others.contains(&leaf) {
            both.push(leaf)?;
        }
    }
    Ok(both)
}

/// Adds a leaf to those that were found, where a chain may have it and it is not yet among them.
fn add(found: &mut Vec<u64>, may_have: &[u64], leaf: u64) -> Result<(), AllocError> {
    if may_have.contains(&leaf) && !found.contains(&leaf) {
        found.push(leaf)?;
    }
    Ok(())
}

/// The chain after one portal more, where there is one that may show a leaf which was not found.
fn next_chain(
    alloc: Global,
    world: &World,
    rows: &[Vec<u64>],
    chain: &Chain,
    q: u64,
    found: &[u64],
) -> Result<Option<Chain>, AllocError> {
    let Some(row) = rows.get(q as usize) else {
        return Ok(None);
    };
    if q >= world.portals() || world.from(q) != chain.at || chain.met.contains(&world.to(q)) {
        return Ok(None);
    }
    let may_have = both(alloc, &chain.may_have, row)?;
    if may_have.iter().all(|leaf| found.contains(leaf)) {
        return Ok(None);
    }
    let Some(state) = step(alloc, &chain.state, world.pane(q))? else {
        return Ok(None);
    };
    let mut met = Vec::from_slice(alloc, &chain.met)?;
    met.push(world.to(q))?;
    Ok(Some(Chain {
        state,
        at: world.to(q),
        met,
        may_have,
    }))
}

/// The chain of one portal, where the world has that portal and it has a row.
fn first_chain(
    alloc: Global,
    world: &World,
    rows: &[Vec<u64>],
    p: u64,
) -> Result<Option<Chain>, AllocError> {
    world.own_portals();
    let Some(row) = rows.get(p as usize) else {
        return Ok(None);
    };
    if p >= world.portals() {
        return Ok(None);
    }
    Ok(Some(Chain {
        state: ChainState::start(alloc, world.pane(p))?,
        at: world.to(p),
        met: Vec::from_slice(alloc, &[world.from(p), world.to(p)])?,
        may_have: Vec::from_slice(alloc, row)?,
    }))
}

/// Takes each portal as the next of a chain: where a chain comes of it, adds the leaf to which that one has come to those that
/// were found, and the chain to those that wait.
fn add_next_chains(
    alloc: Global,
    world: &World,
    rows: &[Vec<u64>],
    chain: &Chain,
    found: &mut Vec<u64>,
    waiting: &mut Vec<Chain>,
) -> Result<(), AllocError> {
    for q in 0..world.portals() {
        let next = next_chain(alloc, world, rows, chain, q, found)?;
        if let Some(next) = next {
            add(found, &next.may_have, next.at)?;
            waiting.push(next)?;
        }
    }
    Ok(())
}

/// The leaves to which an open chain leads from a portal, each of whose portals has the leaf in its row. A chain is left where
/// all that it may still show was found.
pub fn shown(
    alloc: Global,
    world: &World,
    rows: &[Vec<u64>],
    p: u64,
) -> Result<Vec<u64>, AllocError> {
    let mut found = Vec::new(alloc);
    let Some(first) = first_chain(alloc, world, rows, p)? else {
        return Ok(found);
    };
    let mut waiting = Vec::new(alloc);
    add(&mut found, &first.may_have, first.at)?;
    waiting.push(first)?;
    for _ in 0..1_000_000 {
        let Some(chain) = waiting.pop() else {
            break;
        };
        add_next_chains(alloc, world, rows, &chain, &mut found, &mut waiting)?;
    }
    Ok(found)
}
