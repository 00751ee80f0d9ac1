ghost use Rattle.std.specs.Prelude.{◌≤◌};
ghost use Rattle.qm_space.specs.Point.{IsCoordinate, AreCoordinates};

use qm_geom::Plane;
use qm_space::WORLD_EXTENT;
use std::alloc::{AllocError, Global};

/// A stream of numbers that look random: a linear congruential generator of 64 bits.
#[derive(Drop)]
pub(crate) struct Numbers {
    state: u64,
}

impl Numbers {
    pub(crate) fn starting_at(start: u64) -> Numbers {
        Numbers { state: start }
    }

    /// The next number, of 31 bits.
    pub(crate) fn next(&mut self) -> u32 {
        self.state = self
            .state
            .wrapping_mul(6364136223846793005)
            .wrapping_add(1442695040888963407);
        (self.state >> 33) as u32
    }

    /// A point of three whole coordinates from -reach to reach.
    fn point(&mut self, reach: u32) -> [i32; 3]
        requires { reach ≤ 4096 }
        ensures { AreCoordinates result }
    {
        [
            coordinate(self.next(), reach),
            coordinate(self.next(), reach),
            coordinate(self.next(), reach),
        ]
    }

    /// A point of the grid.
    fn grid_point(&mut self) -> [i32; 3]
        ensures { AreCoordinates result }
    {
        [
            grid_coordinate(self.next()),
            grid_coordinate(self.next()),
            grid_coordinate(self.next()),
        ]
    }

    /// A plane through three points of the grid.
    fn grid_plane(&mut self) -> Plane {
        match Plane::through_whole(self.grid_point(), self.grid_point(), self.grid_point()) {
            Ok((plane, _)) => plane,
            Err(_) => Plane::default(),
        }
    }

    /// A plane through three points from -reach to reach.
    pub(crate) fn plane(&mut self, reach: u32) -> Plane
        requires { reach ≤ 4096 }
    {
        match Plane::through_whole(self.point(reach), self.point(reach), self.point(reach)) {
            Ok((plane, _)) => plane,
            Err(_) => Plane::default(),
        }
    }
}

/// How many steps go from 0 to a face of the cube, and how long each is: planes through points of this grid are not too fine.
const STEPS: i32 = 4096;

const STEP: i32 = WORLD_EXTENT / STEPS;

/// A coordinate of the grid, anywhere in the cube, by a number.
fn grid_coordinate(number: u32) -> i32
    ensures { IsCoordinate result }
{
    (number % 8193) as i32 * STEP - STEPS * STEP
}

/// A coordinate from -reach to reach, by a number.
fn coordinate(number: u32, reach: u32) -> i32
    requires { reach ≤ 4096 }
    ensures { IsCoordinate result }
{
    (number % (2 * reach + 1)) as i32 - reach as i32
}

/// So many planes through points of the world's cube.
pub(crate) fn planes(alloc: Global, count: usize) -> Result<Vec<Plane>, AllocError> {
    let mut numbers = Numbers::starting_at(1);
    let mut planes = Vec::with_capacity(alloc, count)?;
    for _ in 0..count {
        planes.push(numbers.grid_plane())?;
    }
    Ok(planes)
}

/// The plane through three points that are on no line.
pub(crate) fn through(p0: [i32; 3], p1: [i32; 3], p2: [i32; 3]) -> Plane
    requires p0_in_cube { AreCoordinates p0 }
    requires p1_in_cube { AreCoordinates p1 }
    requires p2_in_cube { AreCoordinates p2 }
{
    match Plane::through_whole(p0, p1, p2) {
        Ok((plane, _)) => plane,
        Err(_) => Plane::default(),
    }
}
