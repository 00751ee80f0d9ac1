//! The planes that bound a cell.

ghost use Rattle.std.specs.Prelude.{◌≡◌, ◌<◌, ◌↔◌, length, Some, slice_get, MatchOption, IsTrue, OnOk};
ghost use Rattle.qm_convex.specs.Section.{HasSameNormal};
ghost use Rattle.qm_contacts.specs.inner.Bounds.{IsBoundAdded};
ghost use Rattle.qm_portal.specs.inner.Cells.{BeginAxially, IsPlaceOfNormal, HasNoneOfNormal};

use qm_geom::Plane;
use std::alloc::AllocError;

/// How many bounds there are across the axes: they come first, in the order of the cube's walls.
pub(crate) const AXIAL_BOUNDS: usize = 6;

/// Adds a plane to those that bound a cell. Of planes of one normal only the nearest is kept, at the place of the one before,
/// so that a cell has few bounds however deep in a tree it is, and those across the axes come first.
pub(crate) fn add_bound(bounds: &mut Vec<Plane>, plane: &Plane) -> Result<(), AllocError>
    requires { BeginAxially bounds.old.items }
    ensures added { OnOk result (IsBoundAdded plane.now bounds.old.items bounds.new.items) }
    ensures axial { OnOk result (BeginAxially bounds.new.items) }
{
    match place_of_normal(bounds, plane) {
        Some(place) => {
            put_nearer(bounds, place, plane);
            Ok(())
        }
        None => {
            bounds.push(*plane)?;
            Ok(())
        }
    }
}

/// The place of a plane that has the normal of another.
fn place_of_normal(bounds: &[Plane], plane: &Plane) -> Option<usize>
    ensures { MatchOption result (HasNoneOfNormal plane.now bounds.now) (IsPlaceOfNormal plane.now bounds.now) }
{
    for place in 0..bounds.len() {
        if has_normal_of(&bounds[place], plane) {
            return Some(place);
        }
    }
    None
}

/// Whether two planes have one normal.
fn has_normal_of(one: &Plane, other: &Plane) -> bool
    ensures { IsTrue result ↔ HasSameNormal one.now other.now }
{
    one.nx == other.nx && one.ny == other.ny && one.nz == other.nz
}

/// Puts a plane at the place of another that has its normal, where it is nearer.
fn put_nearer(bounds: &mut Vec<Plane>, place: usize, plane: &Plane)
    requires place { IsPlaceOfNormal plane.now bounds.old.items place }
    requires axial { BeginAxially bounds.old.items }
    ensures added { IsBoundAdded plane.now bounds.old.items bounds.new.items }
    ensures axial { BeginAxially bounds.new.items }
{
    if plane.d > bounds[place].d {
        bounds[place] = *plane;
    }
}
