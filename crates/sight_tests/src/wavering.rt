//! Rows that are found over a source whose answers waver, beside a plain walk of open chains and segments.

use crate::two_rows::TwoRows;
use qm_base::base;
use qm_bits::BitRow;
use qm_crew::{Crewed, OpenGate, crew};
use qm_flow::flow;
use qm_lines::LineStore;
use qm_portal::World;
use qm_sight::Rows;
use std::alloc::{AllocError, Global};
use std::test::Fail;
use std::thread::Threads;
use test_numbers::Random;
use test_worlds::{all_passed, have_passed, lists_of, maze, shown, world_of};

/// How many segments are tried in each world.
const SAMPLES: u64 = 1000;

/// The row of each portal, found over a source that answers now a word of its coarse row and now one of a narrower one.
fn wavering_rows<R: Threads + Sync>(
    rt: &R,
    alloc: Global,
    world: &World,
) -> Result<Vec<BitRow>, AllocError> {
    let coarse = base(alloc, world)?;
    let Crewed { rows: fine, .. } = crew(rt, alloc, world, base(alloc, world)?, 1, &OpenGate)?;
    let mut source = TwoRows::of(Rows::over(world, coarse), Rows::over(world, fine));
    let mut lines = LineStore::new(alloc);
    let mut rows = Vec::new(alloc);
    for portal in 0..world.portals() {
        let row = flow(alloc, world, &mut source, portal, &mut lines)?;
        rows.push(row)?;
    }
    Ok(rows)
}

/// Whether a row has only leaves of a list.
fn lies_within(row: &BitRow, leaves: &[u64]) -> bool {
    let mut right = true;
    for leaf in 0..row.len() {
        right &= !row.get(leaf) || leaves.contains(&leaf);
    }
    right
}

/// Whether the row of each portal has only leaves that open chains show over other rows.
fn lie_within(
    alloc: Global,
    world: &World,
    coarse: &[Vec<u64>],
    rows: &[BitRow],
) -> Result<bool, AllocError> {
    let mut right = rows.len() as u64 == world.portals();
    for p in 0..rows.len() {
        let found = shown(alloc, world, coarse, p as u64)?;
        right &= lies_within(&rows[p], &found);
    }
    Ok(right)
}

/// Whether the rows of a world have what segments show, and no more than open chains; at least a hundred segments show something.
fn keep_both_sides<R: Threads + Sync>(
    rt: &R,
    alloc: Global,
    world: &World,
    random: &mut Random,
) -> Result<bool, AllocError> {
    let coarse = base(alloc, world)?;
    let lists = lists_of(alloc, coarse.as_slice())?;
    let rows = wavering_rows(rt, alloc, world)?;
    let all = all_passed(alloc, world, random, SAMPLES)?;
    let lower = all.iter().all(|numbers| have_passed(world, &rows, numbers));
    Ok(all.len() >= 100 && lower && lie_within(alloc, world, &lists, &rows)?)
}

/// Rows over a source that wavers have what segments show, and no more than open chains over its ceilings.
#[test]
fn wavering_answers_keep_both_sides(rt: HostRuntime) -> Result<(), Fail> {
    let mut random = Random::new(0x0DD5);
    let mut right = true;
    for _ in 0..3 {
        let text = maze(rt.alloc(), &mut random, 2)?;
        let world = world_of(rt.alloc(), text.as_str(), [-184, -184, 8])?;
        right &= keep_both_sides(&rt, rt.alloc(), &world, &mut random)?;
    }
    assert!(rt; right);
    Ok(())
}
