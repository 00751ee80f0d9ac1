ghost use Rattle.std.specs.Prelude.{IsTrue, ◌↔◌};
ghost use Rattle.qm_space.specs.Point.{IsWithinExtent};

use crate::vector::product;
use qm_space::WORLD_EXTENT;
use std::marker::Model;

/// A point in homogeneous whole coordinates: `(x / w, y / w, z / w)`, where `w` is above 0.
#[derive(Clone, Copy, Debug, PartialEq, Eq)]
pub struct Point {
    pub x: i64,
    pub y: i64,
    pub z: i64,
    pub w: i64,
}

impl Model for Point {
    ghost use Rattle.std.specs.Prelude.{pos, ◌<ℤ◌};
    ghost use Rattle.qm_space.specs.Point.{Point};

    ghost Value = { Point };

    ghost view = { λ p. record { x = p.x; y = p.y; z = p.z; w = p.w } };

    ghost invariant = { λ p. pos 0 <ℤ p.w };

    ghost inverse = { λ p. record { x = p.x; y = p.y; z = p.z; w = p.w } };
}

impl Point {
    ghost use Rattle.std.specs.Prelude.{IsTrue, ◌↔◌};
    ghost use Rattle.qm_space.specs.Point.{IsInCube};

    /// Whether the point lies strictly inside the world's cube.
    pub fn is_in_cube(&self) -> bool
        ensures { IsTrue result ↔ IsInCube self.now }
    {
        is_within_extent(self.x, self.w)
            && is_within_extent(self.y, self.w)
            && is_within_extent(self.z, self.w)
    }
}

/// Whether a coordinate lies strictly between the cube's two faces across its axis.
fn is_within_extent(coordinate: i64, weight: i64) -> bool
    ensures { IsTrue result ↔ IsWithinExtent coordinate weight }
{
    let farthest = product(i64::from(WORLD_EXTENT), weight);
    let place = i128::from(coordinate);
    -farthest < place && place < farthest
}
