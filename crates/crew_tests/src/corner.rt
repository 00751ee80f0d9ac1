//! Three rooms round a corner: rows and turns of crews of several sizes, again and again.

use crate::runs::{corner_rooms, crewed};
use qm_bits::BitRow;
use qm_crew::{Gate, OpenGate};
use qm_lists::Items;
use qm_portal::World;
use qm_rows::leaf_rows;
use std::alloc::{AllocError, Global};
use std::test::Fail;
use std::thread::Threads;
use test_worlds::has;

/// How many workers, and how many runs of so many.
static RUNS: [(u8, u64); 4] = [(1, 1), (2, 20), (4, 100), (64, 5)];

/// The rows of the leaves, worked out by hand, their first place in the lowest bit.
static ROWS: [u64; 5] = [0x0F, 0x0F, 0x1F, 0x1F, 0x1C];

/// All portals in order.
static PORTALS: [u64; 8] = [0, 1, 2, 3, 4, 5, 6, 7];

fn is_row(row: &BitRow, places: u64) -> bool {
    let mut right = row.len() == 5;
    for leaf in 0..5 {
        right &= has(row, leaf) == ((places >> (leaf % 64)) & 1 == 1);
    }
    right
}

fn are_rows(rows: &[BitRow]) -> bool {
    rows.len() == ROWS.len() && rows.iter().zip(&ROWS).all(|(row, one)| is_row(row, *one))
}

/// Whether there is a list for each worker, and each portal stands in one of them; one worker has all portals in order.
fn are_turns(turns: &[Items<u64>], workers: u8) -> bool {
    let all_stand = PORTALS.iter().all(|portal| turns
        .iter()
        .any(|list| list.as_slice().contains(portal)));
    let in_order = turns
        .iter()
        .all(|list| list.as_slice() == PORTALS.as_slice());
    turns.len() == usize::from(workers) && all_stand && (workers != 1 || in_order)
}

/// Whether so many workers find the rows, and answer turns of all portals.
pub(crate) fn are_found<R: Threads + Sync, G: Gate + Sync>(
    rt: &R,
    alloc: Global,
    world: &World,
    workers: u8,
    gate: &G,
) -> Result<bool, AllocError> {
    let found = crewed(rt, alloc, world, workers, gate)?;
    let rows = leaf_rows(alloc, world, found.rows.as_slice())?;
    Ok(are_rows(rows.as_slice()) && are_turns(found.turns.as_slice(), workers))
}

/// Whether the answers of so many runs are right.
fn hold<R: Threads + Sync>(
    rt: &R,
    alloc: Global,
    world: &World,
    workers: u8,
    runs: u64,
) -> Result<bool, AllocError> {
    let mut right = true;
    for _ in 0..runs {
        right &= are_found(rt, alloc, world, workers, &OpenGate)?;
    }
    Ok(right)
}

#[test]
fn crews_find_rows_and_turns(rt: HostRuntime) -> Result<(), Fail> {
    let world = corner_rooms(rt.alloc())?;
    let mut right = world.portals() == 8;
    for (workers, runs) in &RUNS {
        right &= hold(&rt, rt.alloc(), &world, *workers, *runs)?;
    }
    assert!(rt; right);
    Ok(())
}
