//! Where windings lie beside planes, and their parts on both sides.

use crate::shapes::{floor, on, through};
use qm_geom::Plane;
use qm_wind::{Lies, Winding};
use std::alloc::Global;

/// The plane x + y + z = 0.
fn slope() -> Plane {
    through([[0, 0, 0], [1, -1, 0], [0, 1, -1]])
}

/// How many corners a part has; 0 where there is none.
fn corners(part: &Option<Winding>) -> usize {
    match part {
        Some(winding) => winding.len(),
        None => 0,
    }
}

/// Whether what of a plane is in the cube lies beside another plane as is said, and its parts in front of
/// that and behind it have so many corners.
fn is_split(alloc: Global, own: &Plane, plane: &Plane, lies: Lies, parts: (usize, usize)) -> bool {
    let Some(winding) = on(alloc, own) else {
        return false;
    };
    let said = winding.lies(plane);
    match winding.split(plane) {
        Ok(halves) => { said == lies && (corners(&halves.front), corners(&halves.back)) == parts }
        Err(_) => false,
    }
}

/// The floor by planes through its middle, on it, above and below it, across a corner, along an edge, and
/// slanted along an edge; the slope by itself from both sides, and by planes across it and beside it.
fn rows_are_split(alloc: Global) -> bool {
    let beside_floor = [
        ([[0, 0, 0], [0, 1, 0], [0, 0, 1]], Lies::Across, (4, 4)),
        ([[0, 0, 0], [1, 0, 0], [0, 1, 0]], Lies::On, (0, 0)),
        ([[0, 0, 1], [1, 0, 1], [0, 1, 1]], Lies::Back, (0, 4)),
        ([[0, 0, -1], [1, 0, -1], [0, 1, -1]], Lies::Front, (4, 0)),
        (
            [[32000, 32000, 0], [31232, 32768, 0], [32000, 32000, 1]],
            Lies::Across,
            (3, 5),
        ),
        (
            [[32768, 0, 0], [32768, 1, 0], [32768, 0, 1]],
            Lies::Back,
            (0, 4),
        ),
        (
            [[-32768, 0, 0], [-32768, 1, 0], [-32768, 0, 1]],
            Lies::Front,
            (4, 0),
        ),
        (
            [[32768, 0, 0], [32768, 1, 0], [0, 0, 32768]],
            Lies::Back,
            (0, 4),
        ),
    ];
    let beside_slope = [
        ([[1, 0, -1], [1, -1, 0], [0, 1, -1]], Lies::On, (0, 0)),
        ([[0, 0, 1], [1, 0, 0], [0, 1, 0]], Lies::Back, (0, 6)),
        ([[0, 0, 0], [1, 0, 0], [0, 1, 0]], Lies::Across, (4, 4)),
    ];
    let flipped = is_split(alloc, &slope(), &slope().flipped(), Lies::On, (0, 0));
    flipped
        && beside_floor.iter().all(|(points, lies, parts)| {
            is_split(alloc, &floor(), &through(*points), *lies, *parts)
        })
        && beside_slope.iter().all(|(points, lies, parts)| {
            is_split(alloc, &slope(), &through(*points), *lies, *parts)
        })
}

/// The half of the floor behind x = 0 lies in the cuboid from (-32768, -32768, 0) to (0, 32768, 0).
fn half_has_cuboid(alloc: Global) -> Option<bool> {
    let middle = through([[0, 0, 0], [0, 1, 0], [0, 0, 1]]);
    let ramp = through([[0, 0, 0], [0, 1, 0], [1, 0, -1]]);
    let half = on(alloc, &floor())?.split(&middle).ok()?.back?;
    let cuboid = half.cuboid();
    Some(
        (cuboid.least_value(&middle), cuboid.greatest_value(&middle)) == (-32768, 0)
            && (
                cuboid.least_value(&floor()),
                cuboid.greatest_value(&floor()),
            ) == (0, 0)
            && (cuboid.least_value(&ramp), cuboid.greatest_value(&ramp)) == (-32768, 0),
    )
}

#[test]
fn windings_are_split(rt: HostRuntime) {
    assert!(rt; rows_are_split(rt.alloc()) && half_has_cuboid(rt.alloc()) == Some(true));
}
