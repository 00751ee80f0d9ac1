//! Windings to begin with.

ghost use Rattle.qm_space.specs.Point.{IsCoordinate, AreCoordinates};

use qm_geom::Plane;
use qm_space::WORLD_EXTENT;
use qm_wind::{Clip, Side, Winding};
use std::alloc::{AllocError, Global};

/// The plane through three whole points that are on no line, and whose plane is not too fine. What is outside the cube counts
/// as on its border.
pub(crate) fn through(points: [[i32; 3]; 3]) -> Plane {
    match Plane::through_whole(inside(points[0]), inside(points[1]), inside(points[2])) {
        Ok((plane, _)) => plane,
        Err(_) => Plane::default(),
    }
}

fn inside(point: [i32; 3]) -> [i32; 3]
    ensures { AreCoordinates result }
{
    [
        coordinate(point[0]),
        coordinate(point[1]),
        coordinate(point[2]),
    ]
}

fn coordinate(number: i32) -> i32
    ensures { IsCoordinate result }
{
    number.clamp(-WORLD_EXTENT, WORLD_EXTENT)
}

/// What is left of a winding on one side of a plane; the winding itself where that is nothing.
pub(crate) fn cut(winding: Winding, plane: &Plane, keep: Side) -> Result<Winding, AllocError> {
    match winding.clip(plane, keep)? {
        Clip::Cut(part) => Ok(part),
        _ => Ok(winding),
    }
}

/// The part of a plane inside the cube, cut by others in turn.
pub(crate) fn cut_by(
    alloc: Global,
    points: [[i32; 3]; 3],
    cuts: &[([[i32; 3]; 3], Side)],
) -> Result<Winding, AllocError> {
    let Some(mut winding) = Winding::on(alloc, &through(points))? else {
        return Err(AllocError);
    };
    for (others, keep) in cuts {
        winding = cut(winding, &through(*others), *keep)?;
    }
    Ok(winding)
}

/// The points of a plane across an axis.
pub(crate) fn across_x(x: i32) -> [[i32; 3]; 3] {
    [[x, 0, 0], [x, 1, 0], [x, 0, 1]]
}

pub(crate) fn across_y(y: i32) -> [[i32; 3]; 3] {
    [[0, y, 0], [1, y, 0], [0, y, 1]]
}

pub(crate) fn across_z(z: i32) -> [[i32; 3]; 3] {
    [[0, 0, z], [1, 0, z], [0, 1, z]]
}
