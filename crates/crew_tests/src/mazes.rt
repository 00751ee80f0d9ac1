//! Rows of generated worlds, by crews of several sizes: they have what segments show, and lie within what plain walks find turn
//! by turn.

use crate::runs::crewed;
use qm_base::base;
use qm_bits::BitRow;
use qm_crew::OpenGate;
use qm_lists::Items;
use qm_portal::World;
use std::alloc::{AllocError, Global};
use std::test::Fail;
use std::thread::Threads;
use test_numbers::Random;
use test_worlds::{all_passed, have_passed, lists_of, maze, shown, world_of};

/// How many workers.
static WORKERS: [u8; 5] = [1, 2, 3, 8, 64];

/// How many segments are tried in each world.
const SAMPLES: u64 = 1000;

/// The leaves that rows may have after the turns of a list, from the coarse rows on: those of each portal of the list, in order, are
/// found anew by a walk of all open chains over the rows as they stand then.
fn after_turns(alloc: Global, world: &World, list: &[u64]) -> Result<Vec<Vec<u64>>, AllocError> {
    let mut rows = lists_of(alloc, base(alloc, world)?.as_slice())?;
    for portal in list {
        let found = shown(alloc, world, &rows, *portal)?;
        if let Some(row) = rows.get_mut(*portal as usize) {
            *row = found;
        }
    }
    Ok(rows)
}

/// Whether a row has a place for each leaf, and only leaves of a list.
fn lies_within(world: &World, row: &BitRow, leaves: &[u64]) -> bool {
    let mut right = row.len() == world.leaves();
    for leaf in 0..row.len() {
        right &= !row.get(leaf) || leaves.contains(&leaf);
    }
    right
}

/// Whether each row lies within the list of leaves at its place.
fn lie_within(world: &World, rows: &[BitRow], lists: &[Vec<u64>]) -> bool {
    let mut right = true;
    for (row, leaves) in rows.iter().zip(lists) {
        right &= lies_within(world, row, leaves);
    }
    right
}

/// Whether there is a row for each portal, and each lies within its reuse over turns.
fn lie_within_reuse(
    alloc: Global,
    world: &World,
    rows: &[BitRow],
    turns: &[Items<u64>],
) -> Result<bool, AllocError> {
    let mut right = rows.len() as u64 == world.portals();
    for list in turns {
        let after = after_turns(alloc, world, list.as_slice())?;
        right &= lie_within(world, rows, &after);
    }
    Ok(right)
}

/// Whether the rows that crews find are right.
fn are_right<R: Threads + Sync>(
    rt: &R,
    alloc: Global,
    world: &World,
    all: &[Vec<u64>],
) -> Result<bool, AllocError> {
    let mut right = true;
    for workers in &WORKERS {
        let found = crewed(rt, alloc, world, *workers, &OpenGate)?;
        let rows = found.rows.as_slice();
        right &= lie_within_reuse(alloc, world, rows, found.turns.as_slice())?;
        right &= all.iter().all(|numbers| have_passed(world, rows, numbers));
    }
    Ok(right)
}

#[test]
fn crews_keep_both_sides(rt: HostRuntime) -> Result<(), Fail> {
    let mut random = Random::new(0x0DD5);
    let mut right = true;
    for _ in 0..3 {
        let text = maze(rt.alloc(), &mut random, 2)?;
        let world = world_of(rt.alloc(), text.as_str(), [-184, -184, 8])?;
        let all = all_passed(rt.alloc(), &world, &mut random, SAMPLES)?;
        right &= all.len() >= 100 && are_right(&rt, rt.alloc(), &world, &all)?;
    }
    assert!(rt; right);
    Ok(())
}
