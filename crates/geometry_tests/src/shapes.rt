//! Planes and windings that several tests start from.

ghost use Rattle.qm_space.specs.Point.{IsCoordinate, AreCoordinates, IsThousandths, AreThousandths};

use qm_geom::Plane;
use qm_wind::{Clip, Side, Winding};
use std::alloc::Global;

/// The plane through three points that are on no line. What is outside the cube counts as on its border.
pub(crate) fn through(points: [[i32; 3]; 3]) -> Plane {
    match Plane::through_whole(inside(points[0]), inside(points[1]), inside(points[2])) {
        Ok((plane, _)) => plane,
        Err(_) => Plane::default(),
    }
}

pub(crate) fn inside(point: [i32; 3]) -> [i32; 3]
    ensures { AreCoordinates result }
{
    [
        coordinate(point[0]),
        coordinate(point[1]),
        coordinate(point[2]),
    ]
}

fn coordinate(number: i32) -> i32
    ensures { IsCoordinate result }
{
    number.clamp(-32768, 32768)
}

/// The same of coordinates in thousandths of a map unit.
pub(crate) fn thousandths(point: [i32; 3]) -> [i32; 3]
    ensures { AreThousandths result }
{
    [
        in_thousandths(point[0]),
        in_thousandths(point[1]),
        in_thousandths(point[2]),
    ]
}

fn in_thousandths(number: i32) -> i32
    ensures { IsThousandths result }
{
    number.clamp(-32_768_000, 32_768_000)
}

/// The plane through three points in thousandths of a map unit that are on no line.
pub(crate) fn through_thousandths(points: [[i32; 3]; 3]) -> Plane {
    match Plane::through(
        thousandths(points[0]),
        thousandths(points[1]),
        thousandths(points[2]),
    ) {
        Ok((plane, _)) => plane,
        Err(_) => Plane::default(),
    }
}

/// The plane z = 0.
pub(crate) fn floor() -> Plane {
    through([[0, 0, 0], [1, 0, 0], [0, 1, 0]])
}

/// The part of a plane inside the cube.
pub(crate) fn on(alloc: Global, plane: &Plane) -> Option<Winding> {
    Winding::on(alloc, plane).ok()?
}

/// What is cut off on one side.
fn cut(winding: &Winding, plane: &Plane, keep: Side) -> Option<Winding> {
    match winding.clip(plane, keep).ok()? {
        Clip::Cut(part) => Some(part),
        _ => None,
    }
}

/// What cuts by one plane after another leave.
pub(crate) fn cut_by(start: Winding, cuts: &[([[i32; 3]; 3], Side)]) -> Option<Winding> {
    let mut winding = start;
    for (points, keep) in cuts {
        winding = cut(&winding, &through(*points), *keep)?;
    }
    Some(winding)
}
