//! Clips by random planes, compared corner by corner with a plain slow program.

use crate::shapes::{on, through, through_thousandths};
use crate::slow::{Left, Place, clip};
use qm_geom::Plane;
use qm_wind::{Clip, Side, Winding};
use std::alloc::{AllocError, Global};
use test_numbers::Random;

/// Random planes through three points: their coordinates are so many times a step in thousandths of a map unit, from -reach
/// to reach times.
#[derive(Clone, Copy)]
struct Grid {
    reach: u16,
    step: i32,
}

impl Grid {
    fn plane(self, random: &mut Random) -> Plane {
        let [first, second, third] = random.points(self.reach);
        through_thousandths([self.point(first), self.point(second), self.point(third)])
    }

    fn point(self, [x, y, z]: [i32; 3]) -> [i32; 3] {
        [
            x.saturating_mul(self.step),
            y.saturating_mul(self.step),
            z.saturating_mul(self.step),
        ]
    }
}

/// One of a plane's two sides.
fn random_side(random: &mut Random) -> Side {
    if random.next() % 2 == 0 {
        Side::Front
    } else {
        Side::Back
    }
}

/// Whether the winding's corners are these places.
fn has_places(winding: &Winding, places: &[Place]) -> bool {
    for i in 0..winding.len() {
        if !places.contains(&Place::of(&winding.corner(i))) {
            return false;
        }
    }
    winding.len() == places.len()
}

/// Whether a clip and the slow program's leave the same.
fn agree(fast: &Clip, slow: &Left) -> bool {
    match (fast, slow) {
        (Clip::Whole, Left::Whole) | (Clip::Gone, Left::Gone) => true,
        (Clip::Cut(part), Left::Cut(places)) => has_places(part, places.as_slice()),
        _ => false,
    }
}

/// The corners of a winding.
fn places(alloc: Global, winding: &Winding) -> Result<Vec<Place>, AllocError> {
    let mut places = Vec::new(alloc);
    for i in 0..winding.len() {
        places.push(Place::of(&winding.corner(i)))?;
    }
    Ok(places)
}

/// A winding with the slow program's corners of it, and how often it was cut.
#[derive(Drop)]
struct Walker {
    winding: Winding,
    places: Vec<Place>,
    cuts: u32,
}

impl Walker {
    /// On the part of a plane inside the cube.
    fn on(alloc: Global, plane: &Plane) -> Option<Walker> {
        let winding = on(alloc, plane)?;
        let places = places(alloc, &winding).ok()?;
        Some(Walker {
            winding,
            places,
            cuts: 0,
        })
    }

    /// Clips it, and leaves it as it is where all or nothing is left. Whether the slow program agrees.
    fn clip(&mut self, alloc: Global, plane: &Plane, side: Side) -> Option<bool> {
        let fast = self.winding.clip(plane, side).ok()?;
        let slow = clip(alloc, self.places.as_slice(), plane, side).ok()?;
        if !agree(&fast, &slow) {
            return Some(false);
        }
        if let (Clip::Cut(part), Left::Cut(places)) = (fast, slow) {
            self.winding = part;
            self.places = places;
            self.cuts = self.cuts.wrapping_add(1);
        }
        Some(true)
    }
}

/// Clips the part of a plane inside the cube by eight random planes, one after another. How many cuts
/// there were; `None` where the slow program does not agree.
fn walk(alloc: Global, plane: &Plane, random: &mut Random, grid: Grid) -> Option<u32> {
    let mut walker = Walker::on(alloc, plane)?;
    for _ in 0..8 {
        let plane = grid.plane(random);
        let side = random_side(random);
        if walker.clip(alloc, &plane, side) != Some(true) {
            return None;
        }
    }
    Some(walker.cuts)
}

/// Whether 100 walks from a plane cut often, and all agree.
fn walks_agree(alloc: Global, points: [[i32; 3]; 3], grid: Grid) -> Option<bool> {
    let plane = through(points);
    let mut random = Random::new(u64::from(grid.reach));
    let mut cuts = 0_u32;
    for _ in 0..100 {
        cuts = cuts.wrapping_add(walk(alloc, &plane, &mut random, grid)?);
    }
    Some(cuts > 100)
}

/// Walks from the floor, a hexagon and a ramp, by planes of whole points, of eighths and of thousandths.
fn all_walks_agree(alloc: Global) -> bool {
    let floor = [[0, 0, 0], [1, 0, 0], [0, 1, 0]];
    let hexagon = [[0, 0, 0], [1, -1, 0], [0, 1, -1]];
    let ramp = [[0, 0, 0], [2, 0, 1], [0, 1, 0]];
    [
        (floor, 2, 1000),
        (floor, 8, 1000),
        (floor, 2, 1),
        (hexagon, 2, 1000),
        (hexagon, 8, 1000),
        (hexagon, 8, 125),
        (ramp, 3, 1000),
        (ramp, 16, 1000),
        (ramp, 2, 1),
    ]
    .iter()
    .all(|(points, reach, step)| {
        let grid = Grid {
            reach: *reach,
            step: *step,
        };
        walks_agree(alloc, *points, grid) == Some(true)
    })
}

#[test]
fn random_clips(rt: HostRuntime) {
    assert!(rt; all_walks_agree(rt.alloc()));
}
