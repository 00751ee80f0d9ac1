//! The box round some points, by its ends across the three axes.

ghost use Rattle.std.specs.Prelude.{◌≡◌, pos, ◌<ℤ◌};
ghost use Rattle.qm_space.specs.Coordinates.{HasSmallCoordinates};
ghost use Rattle.qm_space.specs.Cuboid.{IsInCuboid};
ghost use Rattle.qm_facets.specs.inner.Joined.{IsJoined, HasCorners, HasCornersOfAll, AreConvexFacets, no_cuboid};

use crate::ends::{higher_end, lower_end};
use qm_body::Facet;
use qm_geom::Corner;
use qm_space::WORLD_EXTENT;
use qm_wind::Winding;
use std::marker::Model;

/// From one whole number to another across each axis, both included.
#[derive(Clone, Copy)]
pub struct Extents {
    pub low_x: i32,
    pub low_y: i32,
    pub low_z: i32,
    pub high_x: i32,
    pub high_y: i32,
    pub high_z: i32,
}

impl Model for Extents {
    ghost use Rattle.qm_space.specs.Cuboid.{Cuboid};

    ghost Value = { Cuboid };

    ghost view = { λ e. record {
      x = record { low = e.low_x; high = e.high_x };
      y = record { low = e.low_y; high = e.high_y };
      z = record { low = e.low_z; high = e.high_z };
    } };

    ghost inverse = { λ e. record { low_x = e.x.low; low_y = e.y.low; low_z = e.z.low; high_x = e.x.high; high_y = e.y.high; high_z = e.z.high } };
}

impl Extents {
    /// A box that has nothing in the closed cube: that of no points.
    pub fn none() -> Extents
        ensures { result ≡ no_cuboid }
    {
        Extents {
            low_x: WORLD_EXTENT,
            low_y: WORLD_EXTENT,
            low_z: WORLD_EXTENT,
            high_x: -WORLD_EXTENT,
            high_y: -WORLD_EXTENT,
            high_z: -WORLD_EXTENT,
        }
    }

    /// The least box that has this one within and all corners of facets.
    pub(crate) fn with_facets(self, facets: &[Facet]) -> Extents
        requires { AreConvexFacets facets.now }
        ensures { IsJoined self (HasCornersOfAll facets.now) result }
    {
        let mut extents = self;
        for facet in facets {
            extents = extents.with_corners(&facet.winding);
        }
        extents
    }

    /// The least box that has this one within and all corners of a winding.
    fn with_corners(self, winding: &Winding) -> Extents
        ensures { IsJoined self (HasCorners winding.now) result }
    {
        let mut extents = self;
        for i in 0..winding.len() {
            extents = extents.with_corner(&winding.corner(i));
        }
        extents
    }

    /// The least box that has this one within and a corner.
    fn with_corner(self, corner: &Corner) -> Extents
        requires weight { pos 0 <ℤ corner.now.w }
        requires small { HasSmallCoordinates corner.now }
        ensures { IsJoined self (λ c. IsInCuboid c corner.now) result }
    {
        let (below, above) = corner.around();
        Extents {
            low_x: lower_end(self.low_x, &below, 0),
            low_y: lower_end(self.low_y, &below, 1),
            low_z: lower_end(self.low_z, &below, 2),
            high_x: higher_end(self.high_x, &above, 0),
            high_y: higher_end(self.high_y, &above, 1),
            high_z: higher_end(self.high_z, &above, 2),
        }
    }
}
