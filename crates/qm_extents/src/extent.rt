ghost use Rattle.qm_extents.specs.Extents.{IsExtentOf};

use crate::filled::fills;
use qm_geom::{Cuboid, Plane};
use qm_wind::Pane;

/// What is asked of a pane first: the plane by which it is entered, a cuboid that has its polygon, and whether the polygon has
/// all of that cuboid.
#[derive(Clone, Copy)]
pub struct Extent {
    pub into: Plane,
    pub cuboid: Cuboid,
    pub is_full: bool,
}

impl Extent {
    /// The extent of a pane.
    pub fn of(pane: &Pane) -> Extent
        ensures { IsExtentOf pane.now result }
    {
        let winding = &pane.winding;
        let cuboid = winding.cuboid();
        Extent {
            into: pane.into,
            cuboid,
            is_full: fills(winding, &cuboid),
        }
    }
}
