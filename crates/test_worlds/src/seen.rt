//! What segments through a world show, and rows that have it.

use crate::mazes::point;
use crate::segments::{Segment, row_of};
use qm_bits::BitRow;
use qm_portal::World;
use std::alloc::{AllocError, Global};
use test_numbers::Random;

/// Whether a row has a leaf.
pub fn has(row: &BitRow, leaf: u64) -> bool {
    leaf < row.len() && row.get(leaf)
}

/// The portal from one leaf to another.
pub fn portal_between(world: &World, from: u64, to: u64) -> Option<u64> {
    for p in 0..world.portals() {
        if world.from(p) == from && world.to(p) == to {
            return Some(p);
        }
    }
    None
}

/// The numbers of the leaves that a segment between two points of a maze passes, where it is clear.
fn passed(
    alloc: Global,
    world: &World,
    random: &mut Random,
) -> Result<Option<Vec<u64>>, AllocError> {
    let segment = Segment::new(alloc, world.tree(), point(random), point(random))?;
    let Some(leaves) = segment.clear_leaves(alloc, world.tree())? else {
        return Ok(None);
    };
    let mut numbers = Vec::new(alloc);
    for &leaf in &leaves {
        numbers.push(row_of(world.tree(), leaf))?;
    }
    Ok(Some(numbers))
}

/// What those of so many segments pass that go through portals: the numbers of the leaves of each, in order.
pub fn all_passed(
    alloc: Global,
    world: &World,
    random: &mut Random,
    samples: u64,
) -> Result<Vec<Vec<u64>>, AllocError> {
    let mut all = Vec::new(alloc);
    for _ in 0..samples {
        match passed(alloc, world, random)? {
            Some(numbers) if numbers.len() > 1 => all.push(numbers)?,
            _ => (),
        }
    }
    Ok(all)
}

/// Whether the row of each portal through which a segment goes has all leaves in which the segment is then.
pub fn have_passed(world: &World, rows: &[BitRow], numbers: &[u64]) -> bool {
    let mut right = true;
    for i in 1..numbers.len() {
        let row = portal_between(world, numbers[i - 1], numbers[i]).and_then(|p| rows.get(
            p as usize,
        ));
        right &= row.is_some_and(|row| numbers.iter().skip(i).all(|leaf| has(row, *leaf)));
    }
    right
}
