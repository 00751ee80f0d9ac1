ghost use Rattle.std.specs.Prelude.{◌≡◌, IfOk};
ghost use Rattle.qm_split.specs.CellFragments.{HasPointOn};
ghost use Rattle.qm_split.specs.inner.Parts.{IsWindingInCell};

use qm_geom::Plane;
use qm_wind::Winding;
use std::alloc::{AllocError, Global};

/// What a cell has of a plane, where it has a point of it.
pub(crate) fn section_of_cell(
    alloc: Global,
    cell: &[Plane],
    plane: &Plane,
) -> Result<Winding, AllocError>
    requires { HasPointOn cell.now plane.now }
    ensures { IfOk result (IsWindingInCell cell.now plane.now) }
{
    match Winding::on(alloc, plane)? {
        Some(whole) => match whole.keep_all(cell)? {
            Some(section) => Ok(section),
            None => unreachable!(),
        },
        None => unreachable!(),
    }
}
