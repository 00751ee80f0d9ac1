//! To where lines are drawn. Nothing that is promised rests on this choice.

ghost use Rattle.std.specs.Prelude.{◌<◌, length};
ghost use Rattle.qm_space.specs.Point.{IsCoordinate, AreCoordinates};

use crate::traced::Traced;
use qm_geom::Cuboid;
use qm_space::WORLD_EXTENT;

/// The greatest coordinate of the closed cube, and the opposite of the least.
const EXTENT: i64 = WORLD_EXTENT as i64;

/// The middle of the cuboid round a winding, to whole numbers.
pub(crate) fn middle_of(winding: &Traced) -> [i32; 3]
    ensures { AreCoordinates result }
{
    let cuboid = winding.winding().cuboid();
    [cuboid.x.middle(), cuboid.y.middle(), cuboid.z.middle()]
}

/// The point near a corner: 15 of 16 parts of the way to it from the middle.
pub(crate) fn near_corner(winding: &Traced, i: usize) -> [i32; 3]
    requires { i < length winding.now.edges }
    ensures { AreCoordinates result }
{
    let middle = middle_of(winding);
    let corner = winding.spot(i).nearest;
    [
        most_of_the_way(middle[0], corner[0]),
        most_of_the_way(middle[1], corner[1]),
        most_of_the_way(middle[2], corner[2]),
    ]
}

/// Where a line from the middle of a cuboid ends that goes on past an aim for half of the way to it.
pub(crate) fn end_beyond(from: &Cuboid, aim: &[i32; 3]) -> [i32; 3]
    ensures { AreCoordinates result }
{
    [
        beyond(from.x.middle(), aim[0]),
        beyond(from.y.middle(), aim[1]),
        beyond(from.z.middle(), aim[2]),
    ]
}

/// What is half of the way from one coordinate to another beyond the latter, kept inside the closed cube.
fn beyond(from: i32, to: i32) -> i32
    ensures { IsCoordinate result }
{
    coordinate(i64::from(to) + (i64::from(to) - i64::from(from)) / 2)
}

fn most_of_the_way(from: i32, to: i32) -> i32
    ensures { IsCoordinate result }
{
    coordinate((i64::from(from) + 15 * i64::from(to)) / 16)
}

/// The coordinate of the closed cube that is nearest to a number.
fn coordinate(number: i64) -> i32
    ensures { IsCoordinate result }
{
    number.max(-EXTENT).min(EXTENT) as i32
}
