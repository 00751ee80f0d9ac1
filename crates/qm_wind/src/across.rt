ghost use Rattle.std.specs.Prelude.{◌≡◌};
ghost use Rattle.qm_convex.specs.Section.{AreAxialBounds};
ghost use Rattle.qm_wind.specs.inner.Across.{StandAcross};
ghost use Rattle.qm_wind.specs.inner.AxialCells.{bounds_of, IsOpen};

use crate::axial_cell::{AxialCell, Opposites};
use qm_geom::Plane;
use std::cmp::Ordering;

/// The three pairs of planes of a cell, in such an order that the normals of a plane and of the near planes of the first
/// two turn to the front.
#[derive(Clone, Copy)]
pub(crate) struct Across {
    pub(crate) first: Opposites,
    pub(crate) second: Opposites,
    pub(crate) third: Opposites,
}

impl Across {
    /// For a plane, by the first of the components z, y and x of its normal that is not 0.
    pub(crate) fn of(plane: &Plane, cell: &AxialCell) -> Across
        requires axial { AreAxialBounds (bounds_of cell.now) }
        requires wide { IsOpen cell.now }
        ensures { StandAcross plane.now cell.now result }
    {
        let _ = &plane.nx;
        match plane.nz.cmp(&0) {
            Ordering::Greater => Across::new(&cell.x, &cell.y, &cell.z),
            Ordering::Less => Across::new(&cell.y, &cell.x, &cell.z),
            Ordering::Equal => match plane.ny.cmp(&0) {
                Ordering::Greater => Across::new(&cell.z, &cell.x, &cell.y),
                Ordering::Less => Across::new(&cell.x, &cell.z, &cell.y),
                Ordering::Equal if plane.nx < 0 => Across::new(&cell.z, &cell.y, &cell.x),
                Ordering::Equal => Across::new(&cell.y, &cell.z, &cell.x),
            },
        }
    }

    fn new(first: &Opposites, second: &Opposites, third: &Opposites) -> Across
        ensures { result ≡ record { first = first.now; second = second.now; third = third.now } }
    {
        Across {
            first: *first,
            second: *second,
            third: *third,
        }
    }
}
