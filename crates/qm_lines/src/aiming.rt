//! From which points lines are drawn, and to which. Nothing that is promised of lines rests on this choice.

ghost use Rattle.std.specs.Prelude.{◌<◌, length};
ghost use Rattle.qm_space.specs.Point.{IsCoordinate, AreCoordinates};

use crate::line::Line;
use qm_space::WORLD_EXTENT;
use qm_wind::Winding;
use std::alloc::{AllocError, Global};

/// The greatest coordinate of the closed cube, and the opposite of the least.
const EXTENT: i64 = WORLD_EXTENT as i64;

/// How many lines are aimed through a portal at most.
const MOST_AIMS: usize = 14;

/// The anchors of a winding, through which lines are drawn: its middle, and one near each corner.
pub(crate) fn anchors_of(alloc: Global, winding: &Winding) -> Result<Vec<[i32; 3]>, AllocError> {
    let mut anchors = Vec::new(alloc);
    anchors_into(winding, &mut anchors)?;
    Ok(anchors)
}

/// The same in a list that is used again: the middle, and then those near the corners, at 15 of 16 parts of the way to each
/// from the middle.
pub(crate) fn anchors_into(
    winding: &Winding,
    anchors: &mut Vec<[i32; 3]>,
) -> Result<(), AllocError> {
    anchors.clear();
    let middle = middle_of(winding);
    anchors.push(middle)?;
    for i in 0..winding.len() {
        anchors.push(near(&middle, &winding.corner(i).rounded()))?;
    }
    Ok(())
}

/// The middle of the cuboid round a winding, to whole numbers.
fn middle_of(winding: &Winding) -> [i32; 3]
    ensures { AreCoordinates result }
{
    let cuboid = winding.cuboid();
    [cuboid.x.middle(), cuboid.y.middle(), cuboid.z.middle()]
}

/// The two points through which a line is drawn: one at the first portal, and one further on.
#[derive(Clone, Copy)]
pub(crate) struct Aim {
    pub(crate) first: [i32; 3],
    pub(crate) second: [i32; 3],
}

impl Aim {
    /// The line, from half of the way before the first point to half of the way past the second, kept inside the closed cube.
    pub(crate) fn line(&self) -> Line {
        Line::between(
            beyond(&self.second, &self.first),
            beyond(&self.first, &self.second),
        )
    }

    /// How far a point is from the line, by a measure that is good enough to compare points near it.
    fn distance(&self, at: &[i32; 3]) -> u64 {
        let along = step(&self.first, &self.second);
        let aside = step(&self.first, at);
        let across = size(&[
            crossed(aside[1], along[2], aside[2], along[1]),
            crossed(aside[2], along[0], aside[0], along[2]),
            crossed(aside[0], along[1], aside[1], along[0]),
        ]);
        across.saturating_mul(1024) / size(&aside).max(1)
    }
}

/// The step from one point to another.
fn step(from: &[i32; 3], to: &[i32; 3]) -> [i64; 3] {
    [
        i64::from(to[0]) - i64::from(from[0]),
        i64::from(to[1]) - i64::from(from[1]),
        i64::from(to[2]) - i64::from(from[2]),
    ]
}

/// A component of a cross product. It wraps only for points that are far outside the cube.
fn crossed(first: i64, second: i64, third: i64, fourth: i64) -> i64 {
    first
        .wrapping_mul(second)
        .wrapping_sub(third.wrapping_mul(fourth))
}

/// The sum of the sizes of three components.
fn size(components: &[i64; 3]) -> u64 {
    components[0]
        .unsigned_abs()
        .saturating_add(components[1].unsigned_abs())
        .saturating_add(components[2].unsigned_abs())
}

/// A point by its place in a list, and its distance from a line.
#[derive(Clone, Copy, PartialEq, Eq, PartialOrd, Ord)]
pub(crate) struct Ranked {
    distance: u64,
    place: usize,
}

/// Lists lines from the anchors of a first portal through those of another one, beside the line that showed the leaf between
/// them: from that line's first point through the other portal's anchors, those nearest to the line first; third the very
/// line; and then from the first portal's other anchors through the nearest ones. Where no line showed the leaf, the first
/// portal's middle stands for that line's first point.
pub(crate) fn list_aims(
    firsts: &[[i32; 3]],
    seconds: &[[i32; 3]],
    shown: Option<Aim>,
    ranked: &mut Vec<Ranked>,
    aims: &mut Vec<Aim>,
) -> Result<(), AllocError> {
    rank(seconds, shown, ranked)?;
    aims.clear();
    let first = match (shown, firsts.first()) {
        (Some(aim), _) => aim.first,
        (None, Some(middle)) => *middle,
        (None, None) => return Ok(()),
    };
    list_from(&first, seconds, shown, ranked, aims)?;
    list_others(&first, firsts, seconds, ranked, aims)
}

/// Puts points in the order of their distances from a line, where there is one.
fn rank(
    points: &[[i32; 3]],
    shown: Option<Aim>,
    ranked: &mut Vec<Ranked>,
) -> Result<(), AllocError> {
    ranked.clear();
    for (place, point) in points.iter().enumerate() {
        let distance = match shown {
            Some(aim) => aim.distance(point),
            None => 0,
        };
        ranked.push(Ranked { distance, place })?;
    }
    ranked.sort_unstable();
    Ok(())
}

/// Lists the lines from the first point.
fn list_from(
    first: &[i32; 3],
    seconds: &[[i32; 3]],
    shown: Option<Aim>,
    ranked: &[Ranked],
    aims: &mut Vec<Aim>,
) -> Result<(), AllocError> {
    for one in ranked {
        if aims.len() > 5 {
            return Ok(());
        }
        if aims.len() == 2 {
            if let Some(aim) = shown {
                aims.push(aim)?;
            }
        }
        if let Some(second) = seconds.get(one.place) {
            aims.push(Aim {
                first: *first,
                second: *second,
            })?;
        }
    }
    Ok(())
}

/// Lists lines from the other anchors.
fn list_others(
    first: &[i32; 3],
    firsts: &[[i32; 3]],
    seconds: &[[i32; 3]],
    ranked: &[Ranked],
    aims: &mut Vec<Aim>,
) -> Result<(), AllocError> {
    for one in ranked {
        if let Some(second) = seconds.get(one.place) {
            list_to(second, first, firsts, aims)?;
        }
    }
    Ok(())
}

/// Lists lines to one point from all first anchors but one, as far as there is room in the list.
fn list_to(
    second: &[i32; 3],
    first: &[i32; 3],
    firsts: &[[i32; 3]],
    aims: &mut Vec<Aim>,
) -> Result<(), AllocError> {
    for other in firsts {
        if aims.len() >= MOST_AIMS {
            return Ok(());
        }
        if *other != *first {
            aims.push(Aim {
                first: *other,
                second: *second,
            })?;
        }
    }
    Ok(())
}

/// The point that is half of the way from one point to another beyond the latter, kept inside the closed cube.
fn beyond(from: &[i32; 3], to: &[i32; 3]) -> [i32; 3]
    ensures { AreCoordinates result }
{
    [
        further(from[0], to[0]),
        further(from[1], to[1]),
        further(from[2], to[2]),
    ]
}

fn further(from: i32, to: i32) -> i32
    ensures { IsCoordinate result }
{
    coordinate(i64::from(to) + (i64::from(to) - i64::from(from)) / 2)
}

/// The point at 15 of 16 parts of the way from one point to another.
fn near(from: &[i32; 3], to: &[i32; 3]) -> [i32; 3]
    ensures { AreCoordinates result }
{
    [
        most_of_the_way(from[0], to[0]),
        most_of_the_way(from[1], to[1]),
        most_of_the_way(from[2], to[2]),
    ]
}

fn most_of_the_way(from: i32, to: i32) -> i32
    ensures { IsCoordinate result }
{
    coordinate((i64::from(from) + 15 * i64::from(to)) / 16)
}

/// The point of the closed cube that is nearest to a point, axis by axis.
pub(crate) fn inside(at: &[i32; 3]) -> [i32; 3]
    ensures { AreCoordinates result }
{
    [
        coordinate(i64::from(at[0])),
        coordinate(i64::from(at[1])),
        coordinate(i64::from(at[2])),
    ]
}

/// The coordinate of the closed cube that is nearest to a number.
pub(crate) fn coordinate(number: i64) -> i32
    ensures { IsCoordinate result }
{
    number.max(-EXTENT).min(EXTENT) as i32
}
