ghost use Rattle.std.specs.Prelude.{◌≡◌, neg_ℤ, MatchBool};
ghost use Rattle.qm_space.specs.Point.{IsCoordinate};
ghost use Rattle.qm_space.specs.Cube.{mirrored, cube_walls};
ghost use Rattle.qm_convex.specs.Section.{AreAxialBounds};
ghost use Rattle.qm_convex.specs.inner.Parallelogram.{LeaveRoom};
ghost use Rattle.qm_wind.specs.inner.AxialCells.{bounds_of, IsOpen, LeaveNone, IsShut, axial_cuboid};

use crate::walls::{mirrored, wall_x, wall_y, wall_z};
use qm_geom::{Cuboid, Plane, Stretch};

/// Two planes that face one another.
#[derive(Clone, Copy)]
pub(crate) struct Opposites {
    pub(crate) near: Plane,
    pub(crate) far: Plane,
}

/// Three pairs of axial planes, one across each axis, turned to what is between them.
#[derive(Clone, Copy)]
pub(crate) struct AxialCell {
    pub(crate) x: Opposites,
    pub(crate) y: Opposites,
    pub(crate) z: Opposites,
}

impl Opposites {
    /// A wall of the cube, and the wall opposite to it.
    pub(crate) fn of_wall(wall: &Plane) -> Opposites
        ensures { result ≡ record { near = wall.now; far = mirrored wall.now } }
    {
        Opposites {
            near: *wall,
            far: mirrored(wall),
        }
    }

    /// Whether there is room between them.
    fn stand_apart(&self) -> bool
        ensures { MatchBool result (LeaveRoom self.now.near self.now.far) (LeaveNone self.now) }
    {
        let _ = &self.near.d;
        let _ = &self.far.d;
        self.near.d + self.far.d < 0
    }

    /// The distances between them, along their axis.
    fn stretch(&self) -> Stretch
        requires near { IsCoordinate self.now.near.d }
        requires far { IsCoordinate (neg_ℤ self.now.far.d) }
        ensures { result ≡ record { low = self.now.near.d; high = neg_ℤ self.now.far.d } }
    {
        Stretch::between(self.near.d as i32, (-self.far.d) as i32)
    }
}

impl AxialCell {
    /// The whole cube.
    pub(crate) fn whole() -> AxialCell
        ensures { bounds_of result ≡ cube_walls }
    {
        AxialCell {
            x: Opposites::of_wall(&wall_x()),
            y: Opposites::of_wall(&wall_y()),
            z: Opposites::of_wall(&wall_z()),
        }
    }

    /// The cell of six bounds, in the order of the cube's walls.
    pub(crate) fn of(bounds: &[Plane]) -> AxialCell
        requires { AreAxialBounds bounds.now }
        ensures { bounds_of result ≡ bounds.now }
    {
        AxialCell {
            x: Opposites {
                near: bounds[0],
                far: bounds[3],
            },
            y: Opposites {
                near: bounds[1],
                far: bounds[4],
            },
            z: Opposites {
                near: bounds[2],
                far: bounds[5],
            },
        }
    }

    /// Whether there is room between both planes of each pair.
    pub(crate) fn is_open(&self) -> bool
        ensures { MatchBool result (IsOpen self.now) (IsShut self.now) }
    {
        self.x.stand_apart() && self.y.stand_apart() && self.z.stand_apart()
    }

    /// The cuboid of all its points.
    pub(crate) fn cuboid(&self) -> Cuboid
        requires axial { AreAxialBounds (bounds_of self.now) }
        requires wide { IsOpen self.now }
        ensures { result ≡ axial_cuboid self.now }
    {
        Cuboid {
            x: self.x.stretch(),
            y: self.y.stretch(),
            z: self.z.stretch(),
        }
    }
}
