//! Corners at halves and thirds, rounded by hand.

ghost use Rattle.std.specs.Prelude.{◌≡◌, pos, IfSome};
ghost use Rattle.qm_space.specs.Plane.{Plane as PlaneValue};
ghost use Rattle.qm_space.specs.Coordinates.{HasSmallCoordinates};

use crate::shapes::{cut_by, floor, on, through};
use qm_geom::{Corner, Plane, least_distance};
use qm_wind::{Side, Winding};
use std::alloc::Global;

/// How a corner is rounded.
#[derive(Clone, Copy)]
pub(crate) enum Way {
    Nearest,
    Down,
    Up,
}

fn rounded(corner: &Corner, way: Way) -> [i32; 3]
    requires { HasSmallCoordinates corner.now }
{
    match way {
        Way::Nearest => corner.rounded(),
        Way::Down => corner.around().0,
        Way::Up => corner.around().1,
    }
}

/// Whether one of the winding's corners, rounded, is this place.
fn has_corner(winding: &Winding, way: Way, place: [i32; 3]) -> bool {
    for i in 0..winding.len() {
        if rounded(&winding.corner(i), way) == place {
            return true;
        }
    }
    false
}

/// Whether the winding's corners, rounded, are these places, which are different ones.
pub(crate) fn has_corners(winding: &Winding, way: Way, places: &[[i32; 3]]) -> bool {
    winding.len() == places.len() && places.iter().all(|place| has_corner(winding, way, *place))
}

/// The triangle on the floor with the corners (1/2, 0), (-1/3, 0) and (0, 1), where -x stands for x in
/// the mirror.
fn triangle(alloc: Global, mirror: bool) -> Option<Winding> {
    let x = if mirror { -1 } else { 1 };
    let (right, left) = if mirror {
        (Side::Front, Side::Back)
    } else {
        (Side::Back, Side::Front)
    };
    cut_by(
        on(alloc, &floor())?,
        &[
            ([[0, 0, 0], [1, 0, 0], [0, 0, 1]], Side::Front),
            ([[0, 1, 0], [x, -1, 0], [0, 1, 1]], right),
            ([[0, 1, 0], [x, 4, 0], [0, 1, 1]], left),
        ],
    )
}

/// Whether the triangle's corners round to these places: nearest, down and up.
fn rounds_to(alloc: Global, mirror: bool, wanted: [[[i32; 3]; 3]; 3]) -> bool {
    match triangle(alloc, mirror) {
        Some(triangle) => {
            has_corners(&triangle, Way::Nearest, &wanted[0])
                && has_corners(&triangle, Way::Down, &wanted[1])
                && has_corners(&triangle, Way::Up, &wanted[2])
        }
        None => false,
    }
}

/// Whether the triangle and its mirror image round to what was worked out by hand.
fn both_round(alloc: Global) -> bool {
    let wanted = [
        [[1, 0, 0], [0, 0, 0], [0, 1, 0]],
        [[0, 0, 0], [-1, 0, 0], [0, 1, 0]],
        [[1, 0, 0], [0, 0, 0], [0, 1, 0]],
    ];
    let mirrored = [
        [[-1, 0, 0], [0, 0, 0], [0, 1, 0]],
        [[-1, 0, 0], [0, 0, 0], [0, 1, 0]],
        [[0, 0, 0], [1, 0, 0], [0, 1, 0]],
    ];
    rounds_to(alloc, false, wanted) && rounds_to(alloc, true, mirrored)
}

/// The least distances for the normals (3, -1, 0) and (-3, 1, 0) at the corners of a winding.
fn least_distances(winding: &Winding) -> (i64, i64) {
    let _ = winding.len();
    let corners = [winding.corner(0), winding.corner(1), winding.corner(2)];
    (
        least_distance([3, -1, 0], &corners),
        least_distance([-3, 1, 0], &corners),
    )
}

fn triangle_has_distances(alloc: Global) -> bool {
    match triangle(alloc, false) {
        Some(triangle) => least_distances(&triangle) == (2, 1),
        None => false,
    }
}

/// The plane with 3 x = 1, on which no point is whole.
fn third() -> Plane
    ensures { result ≡ record { nx = pos 3; ny = pos 0; nz = pos 0; d = pos 1 } }
{
    Plane {
        nx: 3,
        ny: 0,
        nz: 0,
        d: 1,
    }
}

/// The plane y = 0.
fn across() -> Plane
    ensures { result ≡ record { nx = pos 0; ny = pos 1; nz = pos 0; d = pos 0 } }
{
    Plane {
        nx: 0,
        ny: 1,
        nz: 0,
        d: 0,
    }
}

/// The plane z = 0.
fn level() -> Plane
    ensures { result ≡ record { nx = pos 0; ny = pos 0; nz = pos 1; d = pos 0 } }
{
    Plane {
        nx: 0,
        ny: 0,
        nz: 1,
        d: 0,
    }
}

/// The corner at (1/3, 0, 0).
fn corner_at_a_third() -> Option<Corner>
    ensures { IfSome result HasSmallCoordinates }
{
    Corner::of(&third(), &across(), &level())
}

fn is_at_a_third(corner: &Corner) -> bool
    requires { HasSmallCoordinates corner.now }
{
    let (numerator, denominator) = corner.fraction(0);
    let corners = [*corner];
    corner.rounded() == [0, 0, 0]
        && corner.around() == ([0, 0, 0], [1, 0, 0])
        && (numerator, denominator) == (1, 3)
        && least_distance([1, 0, 0], &corners) == 1
        && least_distance([-1, 0, 0], &corners) == 0
}

fn has_corner_at_a_third() -> bool {
    match corner_at_a_third() {
        Some(corner) => is_at_a_third(&corner),
        None => false,
    }
}

/// Whether three planes without one common point have no corner.
fn have_no_corner() -> bool {
    let wall = through([[0, 0, 0], [0, 1, 0], [0, 0, 1]]);
    let beside = through([[1, 0, 0], [1, 1, 0], [1, 0, 1]]);
    let across = through([[0, 0, 0], [1, 0, 0], [0, 0, 1]]);
    Corner::of(&wall, &beside, &across).is_none() && Corner::of(&wall, &wall, &floor()).is_none()
}

#[test]
fn corners_of_planes(rt: HostRuntime) {
    let alloc = rt.alloc();
    assert!(rt;
        both_round(alloc)
            && triangle_has_distances(alloc)
            && has_corner_at_a_third()
            && have_no_corner()
    );
}
