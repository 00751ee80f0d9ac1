//! Coarse rows of generated worlds, beside a flood that goes through all portals again and again, and tests corners.

use qm_base::base;
use qm_bits::BitRow;
use qm_geom::Plane;
use qm_portal::World;
use qm_wind::Winding;
use std::alloc::{AllocError, Global};
use std::cmp::Ordering;
use std::test::Fail;
use test_numbers::Random;
use test_texts::{BoxRow, text_of};
use test_worlds::world_of;

/// Whether a winding has a corner on a side of a plane.
fn has_corner(winding: &Winding, plane: &Plane, side: Ordering) -> bool {
    for i in 0..winding.len() {
        if winding.corner(i).side(plane) == side {
            return true;
        }
    }
    false
}

fn follows(world: &World, p: u64, q: u64) -> bool {
    if p >= world.portals() || q >= world.portals() {
        return false;
    }
    let first = world.pane(p);
    let second = world.pane(q);
    has_corner(&second.winding, &first.into, Ordering::Greater)
        && has_corner(&first.winding, &second.into, Ordering::Less)
}

/// Adds the leaves that one comes to from the leaves of a list by one more portal that follows a portal.
fn add_next(found: &mut Vec<u64>, world: &World, p: u64) -> Result<(), AllocError> {
    for q in 0..world.portals() {
        if found.contains(&world.from(q)) && !found.contains(&world.to(q)) && follows(world, p, q) {
            found.push(world.to(q))?;
        }
    }
    Ok(())
}

/// The leaves that one comes to from a portal, each once.
fn reached(alloc: Global, world: &World, p: u64) -> Result<Vec<u64>, AllocError> {
    let mut found = Vec::new(alloc);
    if p < world.portals() {
        found.push(world.to(p))?;
    }
    for _ in 0..world.leaves() {
        let before = found.len();
        add_next(&mut found, world, p)?;
        if found.len() == before {
            break;
        }
    }
    Ok(found)
}

/// Whether a row has a place for each leaf, and just the leaves of a list.
fn is_row_of(world: &World, row: &BitRow, leaves: &[u64]) -> bool {
    let mut right = row.len() == world.leaves();
    for leaf in 0..row.len() {
        right &= row.get(leaf) == leaves.contains(&leaf);
    }
    right
}

/// Whether the rows of all portals are right.
fn are_right(alloc: Global, world: &World) -> Result<bool, AllocError> {
    let rows = base(alloc, world)?;
    let mut right = rows.len() as u64 == world.portals();
    for p in 0..rows.len() {
        let found = reached(alloc, world, p as u64)?;
        right &= is_row_of(world, &rows.as_slice()[p], &found);
    }
    Ok(right)
}

/// Boxes at places of a grid of three by three.
fn boxes(alloc: Global, places: u64) -> Result<Vec<BoxRow>, AllocError> {
    let mut boxes = Vec::new(alloc);
    for place in 0..9u32 {
        if (places >> (2 * place)) & 3 >= 2 {
            let x = 64 * (place % 3) as i32 - 128;
            let y = 64 * (place / 3) as i32 - 128;
            let z = 16 * (place % 2) as i32;
            boxes.push((
                [x, y, z],
                [
                    x.saturating_add(48),
                    y.saturating_add(64),
                    z.saturating_add(64),
                ],
            ))?;
        }
    }
    Ok(boxes)
}

#[test]
fn rows_are_as_a_plain_flood_says(rt: HostRuntime) -> Result<(), Fail> {
    let mut random = Random::new(1);
    let mut right = true;
    for _ in 0..8 {
        let boxes = boxes(rt.alloc(), random.next())?;
        let text = text_of(rt.alloc(), &boxes)?;
        let world = world_of(rt.alloc(), text.as_str(), [0, 0, 200])?;
        right &= are_right(rt.alloc(), &world)?;
    }
    assert!(rt; right);
    Ok(())
}
