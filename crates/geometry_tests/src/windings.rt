//! The parts of planes inside the cube, and what planes cut off them.

use crate::corners::{Way, has_corners};
use crate::shapes::{cut_by, floor, on, through};
use qm_geom::Plane;
use qm_wind::{Clip, Pane, Side, Winding};
use std::alloc::Global;

/// The plane x = 0.
fn middle() -> Plane {
    through([[0, 0, 0], [0, 1, 0], [0, 0, 1]])
}

/// Whether the part of a plane inside the cube has these corners.
fn has_part(alloc: Global, points: [[i32; 3]; 3], places: &[[i32; 3]]) -> bool {
    match on(alloc, &through(points)) {
        Some(winding) => has_corners(&winding, Way::Nearest, places),
        None => places.is_empty(),
    }
}

/// Whether the cube has six faces of four corners.
fn has_faces(alloc: Global) -> bool {
    match Winding::faces(alloc) {
        Ok(faces) => faces.len() == 6 && faces.iter().all(|face| face.len() == 4),
        Err(_) => false,
    }
}

/// What is left of a winding: so many corners, where it was cut.
const GONE: usize = 0;

const WHOLE: usize = 100;

fn left(winding: &Winding, plane: &Plane, keep: Side) -> Option<usize> {
    match winding.clip(plane, keep).ok()? {
        Clip::Whole => Some(WHOLE),
        Clip::Gone => Some(GONE),
        Clip::Cut(part) => Some(part.len()),
    }
}

/// Whether each plane leaves of the winding in front of it and behind it what is said.
fn leaves(winding: &Winding, rows: &[([[i32; 3]; 3], usize, usize)]) -> bool {
    rows.iter().all(|(points, front, back)| {
        let plane = through(*points);
        left(winding, &plane, Side::Front) == Some(*front)
            && left(winding, &plane, Side::Back) == Some(*back)
    })
}

/// What planes through the floor's middle, on it, above it, across a corner, through two corners, through
/// one, and along an edge leave.
fn floor_is_cut(alloc: Global) -> bool {
    let rows = [
        ([[0, 0, 0], [0, 1, 0], [0, 0, 1]], 4, 4),
        ([[0, 0, 0], [1, 0, 0], [0, 1, 0]], GONE, GONE),
        ([[0, 0, 1], [1, 0, 1], [0, 1, 1]], GONE, WHOLE),
        (
            [[32000, 32000, 0], [31232, 32768, 0], [32000, 32000, 1]],
            3,
            5,
        ),
        ([[0, 0, 0], [1, 1, 0], [0, 0, 1]], 3, 3),
        ([[32768, 32768, 0], [0, -32768, 0], [0, -32768, 1]], 3, 4),
        ([[32768, 0, 0], [32768, 1, 0], [32768, 0, 1]], GONE, WHOLE),
    ];
    match on(alloc, &floor()) {
        Some(square) => leaves(&square, &rows),
        None => false,
    }
}

/// The floor's square without one of its corners.
fn five_corners(alloc: Global) -> Option<Winding> {
    cut_by(
        on(alloc, &floor())?,
        &[(
            [[32000, 32000, 0], [31232, 32768, 0], [32000, 32000, 1]],
            Side::Back,
        )],
    )
}

/// What the plane of that cut and one through a new corner alone leave.
fn part_is_touched(alloc: Global) -> bool {
    let rows = [
        (
            [[32000, 32000, 0], [31232, 32768, 0], [32000, 32000, 1]],
            GONE,
            WHOLE,
        ),
        (
            [[31232, 32768, 0], [32768, 32000, 0], [32768, 32000, 1]],
            GONE,
            WHOLE,
        ),
    ];
    match five_corners(alloc) {
        Some(part) => leaves(&part, &rows),
        None => false,
    }
}

/// The part of one of the steepest planes in front of another.
fn steepest_part(alloc: Global) -> Option<Winding> {
    let steep = through([[4096, -4095, 0], [-4096, -4096, 0], [-4095, 4096, 1]]);
    cut_by(
        on(alloc, &steep)?,
        &[(
            [[4096, 0, -4095], [-4096, 0, -4096], [-4095, 1, 4096]],
            Side::Front,
        )],
    )
}

fn steepest_planes_meet(alloc: Global) -> bool {
    let places = [
        [32768, 32768, 4],
        [-32768, 32768, 5],
        [-32768, 1, 1],
        [32768, 0, 0],
    ];
    match steepest_part(alloc) {
        Some(part) => has_corners(&part, Way::Nearest, &places),
        None => false,
    }
}

/// The cuts that take a corner of the floor off, the one to the west or east and to the south or north, and then the corner that this
/// leaves on the side.
fn cuts_at(west: bool, south: bool) -> [([[i32; 3]; 3], Side); 2] {
    let x = |at: i32| if west { at.wrapping_neg() } else { at };
    let y = |at: i32| if south { at.wrapping_neg() } else { at };
    let keep = if west { Side::Front } else { Side::Back };
    let long = [
        [x(24000), y(24000), 0],
        [x(24000), y(24000), 1],
        [x(16000), y(32000), 0],
    ];
    let short = [
        [x(32000), y(12000), 0],
        [x(32000), y(12000), 1],
        [x(31200), y(13600), 0],
    ];
    [(long, keep), (short, keep)]
}

/// The floor's square without its corners, by so many cuts that its edges no longer stand inline.
fn twelve_corners(alloc: Global) -> Option<Winding> {
    let start = on(alloc, &floor())?;
    let east = cut_by(
        cut_by(start, &cuts_at(false, false))?,
        &cuts_at(false, true),
    )?;
    cut_by(cut_by(east, &cuts_at(true, true))?, &cuts_at(true, false))
}

/// Whether the plane of each edge goes through the corner at its place and through the next one.
fn has_edges(winding: &Winding) -> bool {
    let count = winding.len();
    let mut right = true;
    for i in 0..count {
        let edge = winding.edge(i);
        let next = if i + 1 < count { i + 1 } else { 0 };
        right &= winding.corner(i).side(&edge).is_eq() && winding.corner(next).side(&edge).is_eq();
    }
    right
}

/// Whether a winding is the one of twelve corners, and its halves have eight.
fn is_the_one_of_twelve(winding: &Winding) -> bool {
    let places = [
        [32768, -10464, 0],
        [32768, 10464, 0],
        [28000, 20000, 0],
        [15232, 32768, 0],
        [-15232, 32768, 0],
        [-28000, 20000, 0],
        [-32768, 10464, 0],
        [-32768, -10464, 0],
        [-28000, -20000, 0],
        [-15232, -32768, 0],
        [15232, -32768, 0],
        [28000, -20000, 0],
    ];
    has_corners(winding, Way::Nearest, &places)
        && winding.plane() == floor()
        && has_edges(winding)
        && leaves(winding, &[([[0, 0, 0], [0, 1, 0], [0, 0, 1]], 8, 8)])
}

fn copy_has_twelve(alloc: Global) -> Option<bool> {
    let winding = twelve_corners(alloc)?;
    let copied = winding.copy().ok()?;
    Some(is_the_one_of_twelve(&copied))
}

#[test]
fn windings_are_cut(rt: HostRuntime) {
    let alloc = rt.alloc();
    assert!(rt;
        floor_is_cut(alloc)
            && part_is_touched(alloc)
            && steepest_planes_meet(alloc)
            && copy_has_twelve(alloc) == Some(true)
    );
}

/// Whether the plane x = 0, entered to a side, faces as is said.
fn leads_into(alloc: Global, side: Side, into: Plane) -> bool {
    match on(alloc, &middle()) {
        Some(winding) => Pane::entering(winding, side).into == into,
        None => false,
    }
}

#[test]
fn parts_of_planes(rt: HostRuntime) {
    let alloc = rt.alloc();
    assert!(rt;
        has_faces(alloc)
            && leads_into(alloc, Side::Back, middle().flipped())
            && leads_into(alloc, Side::Front, middle())
            && has_part(alloc, [[32768, 0, 0], [32768, 1, 0], [32768, 0, 1]], &[])
            && has_part(
                alloc,
                [[0, 0, 0], [1, 0, 0], [0, 1, 0]],
                &[
                    [-32768, -32768, 0],
                    [32768, -32768, 0],
                    [32768, 32768, 0],
                    [-32768, 32768, 0]
                ]
            )
            && has_part(
                alloc,
                [[0, 0, 0], [1, -1, 0], [0, 1, -1]],
                &[
                    [32768, -32768, 0],
                    [32768, 0, -32768],
                    [0, 32768, -32768],
                    [-32768, 32768, 0],
                    [-32768, 0, 32768],
                    [0, -32768, 32768],
                ]
            )
    );
}
