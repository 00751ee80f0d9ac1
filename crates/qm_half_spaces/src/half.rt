ghost use Rattle.std.specs.Prelude.{◌≡◌};
ghost use Rattle.qm_half_spaces.specs.HalfCells.{inward_of_half};

use qm_geom::Plane;

/// A half-space: the points strictly on one side of a plane, on its front or on its back.
#[derive(Clone, Copy)]
pub struct Half {
    pub plane: Plane,
    pub front: bool,
}

impl Half {
    /// The plane, turned to the side that is named.
    pub fn inward_plane(&self) -> Plane
        ensures { result ≡ inward_of_half self.now }
    {
        if self.front {
            self.plane
        } else {
            self.plane.flipped()
        }
    }
}
