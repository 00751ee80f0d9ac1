//! Workers beside one another: that more than one comes, and that one is given what another has published.

use crate::corner::are_found;
use crate::gates::{FirstHeld, OneBeforeOther};
use crate::runs::{corner_rooms, crewed};
use qm_base::base;
use qm_bits::BitRow;
use qm_portal::World;
use std::alloc::{AllocError, Global};
use std::test::Fail;
use std::thread::Threads;
use test_worlds::{has, portal_between};

/// How many workers there are, and until how many of the eight portals are drawn the first worker is held: until a second worker
/// has come, or until the others have drawn all that is left.
static HELD: [(u8, u64); 7] = [(2, 2), (3, 2), (4, 2), (64, 2), (2, 8), (4, 8), (64, 8)];

/// How many runs of each.
const RUNS: u64 = 10;

/// Whether in each run as many portals were drawn in time, each portal was drawn once, and rows and turns are right.
fn come_in_time<R: Threads + Sync>(
    rt: &R,
    alloc: Global,
    world: &World,
    workers: u8,
    until: u64,
) -> Result<bool, AllocError> {
    let mut right = true;
    for _ in 0..RUNS {
        let gate = FirstHeld::until(until);
        right &= are_found(rt, alloc, world, workers, &gate)?;
        right &= !gate.is_alone() && gate.drawn() == world.portals();
    }
    Ok(right)
}

/// A second worker comes while the first is held, and rows are right though one worker is held to the end.
#[test]
fn others_come_while_one_is_held(rt: HostRuntime) -> Result<(), Fail> {
    let world = corner_rooms(rt.alloc())?;
    let mut right = true;
    for (workers, until) in &HELD {
        right &= come_in_time(&rt, rt.alloc(), &world, *workers, *until)?;
    }
    assert!(rt; right);
    Ok(())
}

fn has_at(rows: &[BitRow], portal: u64, leaf: u64) -> bool {
    rows.get(portal as usize).is_some_and(|row| has(row, leaf))
}

/// Whether the last leaf is in the coarse row of the portal from leaf 1 to leaf 2, and is not in its row at last, and the flow of
/// the portal from leaf 0 to leaf 1, held until then, is given a word without it.
fn is_given_published<R: Threads + Sync>(
    rt: &R,
    alloc: Global,
    world: &World,
) -> Result<bool, AllocError> {
    let coarse = base(alloc, world)?;
    let (Some(first), Some(other)) = (portal_between(world, 1, 2), portal_between(world, 0, 1))
    else {
        return Ok(false);
    };
    let gate = OneBeforeOther::new(first, other, 4);
    let found = crewed(rt, alloc, world, 2, &gate)?;
    Ok(
        has_at(coarse.as_slice(), first, 4)
            && !has_at(found.rows.as_slice(), first, 4)
            && !gate.is_alone()
            && gate.has_given_narrower(),
    )
}

#[test]
fn workers_are_given_published_rows(rt: HostRuntime) -> Result<(), Fail> {
    let world = corner_rooms(rt.alloc())?;
    assert!(rt; is_given_published(&rt, rt.alloc(), &world)?);
    Ok(())
}
