//! Openings across the axes, one behind another.

ghost use Rattle.std.specs.Prelude.{IfOk};
ghost use Rattle.qm_space.specs.Point.{IsCoordinate, AreCoordinates};
ghost use Rattle.qm_wind.specs.Entered.{IsPane};

use qm_geom::Plane;
use qm_space::WORLD_EXTENT;
use qm_wind::{Pane, Side, Winding};
use std::alloc::{AllocError, Global};

/// How the openings lie: with whole corners in planes across the axes; with whole corners in planes that are turned; slanted;
/// slanted and with six corners.
#[derive(Clone, Copy)]
pub(crate) enum Shape {
    Whole,
    Turned,
    Fractional,
    Hexagons,
}

impl Shape {
    pub(crate) fn name(self) -> &'static str {
        match self {
            Shape::Whole => "whole",
            Shape::Turned => "turned",
            Shape::Fractional => "fractional",
            Shape::Hexagons => "hexagons",
        }
    }

    fn is_slanted(self) -> bool {
        match self {
            Shape::Whole | Shape::Turned => false,
            Shape::Fractional | Shape::Hexagons => true,
        }
    }

    /// How many sides an opening has.
    fn sides(self) -> usize {
        match self {
            Shape::Hexagons => 6,
            _ => 4,
        }
    }

    /// The whole point of a place, given by how far it is along an axis and along the next two.
    fn point(self, axis: i32, place: [i32; 3]) -> [i32; 3] {
        let [x, y, z] = match axis % 3 {
            0 => place,
            1 => [place[2], place[0], place[1]],
            _ => [place[1], place[2], place[0]],
        };
        match self {
            Shape::Whole => [x, y, z],
            Shape::Turned => [
                times(x, 3).wrapping_sub(times(y, 4)),
                times(x, 4).wrapping_add(times(y, 3)),
                times(z, 5),
            ],
            _ => [times(x, 8), times(y, 8), times(z, 8)],
        }
    }
}

fn times(number: i32, factor: i32) -> i32 {
    number.wrapping_mul(factor)
}

fn sum(first: i32, second: i32) -> i32 {
    first.wrapping_add(second)
}

/// An opening, entered to one side of its plane.
#[derive(Drop)]
pub(crate) struct Opening {
    pub(crate) winding: Winding,
    side: Side,
}

impl Opening {
    pub(crate) fn pane(&self) -> Result<Pane, AllocError>
        ensures { IfOk result IsPane }
    {
        let winding = self.winding.copy()?;
        Ok(Pane::entering(winding, self.side))
    }
}

/// Three openings, one behind another.
#[derive(Drop)]
pub(crate) struct Chain {
    pub(crate) first: Opening,
    pub(crate) second: Opening,
    pub(crate) third: Opening,
}

/// A stream of openings of a shape that look random, by a linear congruential generator of 64 bits.
#[derive(Drop)]
pub(crate) struct Openings {
    state: u64,
    shape: Shape,
}

impl Openings {
    pub(crate) fn new(shape: Shape) -> Openings {
        Openings { state: 1, shape }
    }

    /// The next number below a count of up to 64.
    fn number(&mut self, count: u8) -> i32 {
        self.state = self
            .state
            .wrapping_mul(6364136223846793005)
            .wrapping_add(1442695040888963407);
        let number = (self.state >> 33) as u32;
        if count == 0 {
            return 0;
        }
        (number % u32::from(count)) as i32
    }

    /// A whole point near a place, which is moved a little where planes are slanted.
    fn near(&mut self, axis: i32, place: [i32; 3]) -> [i32; 3] {
        let [x, y, z] = self.shape.point(axis, place);
        if self.shape.is_slanted() {
            let a = self.number(64);
            let b = self.number(64);
            let c = self.number(64);
            return [
                sum(x, sum(a, -32)),
                sum(y, sum(b, -32)),
                sum(z, sum(c, -32)),
            ];
        }
        [x, y, z]
    }

    /// The plane of three places.
    fn plane(&mut self, axis: i32, places: [[i32; 3]; 3]) -> Plane {
        let a = self.near(axis, places[0]);
        let b = self.near(axis, places[1]);
        let c = self.near(axis, places[2]);
        match Plane::through_whole(inside(a), inside(b), inside(c)) {
            Ok((plane, _)) => plane,
            Err(_) => Plane::default(),
        }
    }

    /// The planes of an opening's sides, by the places of its least and greatest corners.
    fn side(&mut self, axis: i32, i: usize, low: [i32; 2], high: [i32; 2]) -> Plane {
        let [a, b] = low;
        let [c, d] = high;
        let places = match i {
            0 => [[-32, a, 0], [32, a, 32], [32, a, -32]],
            1 => [[-32, c, 0], [32, c, 32], [32, c, -32]],
            2 => [[-32, 0, b], [32, 32, b], [32, -32, b]],
            3 => [[-32, 0, d], [32, 32, d], [32, -32, d]],
            4 => [[-32, sum(a, 6), b], [32, sum(a, 6), b], [0, a, sum(b, 6)]],
            _ => [
                [-32, sum(c, -6), d],
                [32, sum(c, -6), d],
                [0, c, sum(d, -6)],
            ],
        };
        self.plane(axis, places)
    }

    /// An opening so far along an axis, entered from below.
    fn opening(
        &mut self,
        alloc: Global,
        axis: i32,
        far: i32,
    ) -> Result<Option<Opening>, AllocError> {
        let a = sum(self.number(48), -32);
        let b = sum(self.number(48), -32);
        let c = sum(a, sum(12, self.number(24)));
        let d = sum(b, sum(12, self.number(24)));
        let plane = self.plane(axis, [[far, -32, -32], [far, 32, -32], [far, -32, 32]]);
        let middle = self.shape.point(axis, [far, sum(a, c) / 2, sum(b, d) / 2]);
        let Some(mut winding) = Winding::on(alloc, &plane)? else {
            return Ok(None);
        };
        for i in 0..self.shape.sides() {
            let side = self.side(axis, i, [a, b], [c, d]);
            winding = match winding.keep(&side, side_of(&side, middle))? {
                Some(kept) => kept,
                None => return Ok(None),
            };
        }
        let beyond = self.shape.point(axis, [sum(far, 64), 0, 0]);
        Ok(Some(Opening {
            winding,
            side: side_of(&plane, beyond),
        }))
    }

    /// Three openings, one behind another; the last two across some axis. `None` where one of them has no points.
    fn chain(&mut self, alloc: Global) -> Result<Option<Chain>, AllocError> {
        let axis = self.number(9);
        let Some(first) = self.opening(alloc, 0, -8)? else {
            return Ok(None);
        };
        let far = sum(8, self.number(24));
        let Some(second) = self.opening(alloc, if axis < 3 { axis } else { 0 }, far)? else {
            return Ok(None);
        };
        let far = sum(48, self.number(24));
        let Some(third) = self.opening(alloc, axis % 3, far)? else {
            return Ok(None);
        };
        Ok(Some(Chain {
            first,
            second,
            third,
        }))
    }

    /// The chains of 64 tries.
    pub(crate) fn chains(&mut self, alloc: Global) -> Result<Vec<Chain>, AllocError> {
        let mut chains = Vec::new(alloc);
        for _ in 0..64 {
            if let Some(chain) = self.chain(alloc)? {
                chains.push(chain)?;
            }
        }
        Ok(chains)
    }
}

/// The side of a plane on which a whole point lies; the front where it is on the plane.
fn side_of(plane: &Plane, point: [i32; 3]) -> Side {
    let along = i64::from(plane.nx)
        .wrapping_mul(i64::from(point[0]))
        .wrapping_add(i64::from(plane.ny).wrapping_mul(i64::from(point[1])))
        .wrapping_add(i64::from(plane.nz).wrapping_mul(i64::from(point[2])));
    if along < plane.d {
        Side::Back
    } else {
        Side::Front
    }
}

/// The point with what is outside the cube brought to its border.
fn inside(point: [i32; 3]) -> [i32; 3]
    ensures { AreCoordinates result }
{
    [
        coordinate(point[0]),
        coordinate(point[1]),
        coordinate(point[2]),
    ]
}

fn coordinate(number: i32) -> i32
    ensures { IsCoordinate result }
{
    number.clamp(-WORLD_EXTENT, WORLD_EXTENT)
}
