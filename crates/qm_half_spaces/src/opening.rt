//! Whether several half-spaces have a point of the cube in common.

ghost use Rattle.std.specs.Prelude.{◌↔◌, IfOk, IsTrue};
ghost use Rattle.qm_space.specs.Cell.{HasPoint};
ghost use Rattle.qm_half_spaces.specs.HalfCells.{cell_of_halves};

use crate::body::Body;
use crate::half::Half;
use std::alloc::{AllocError, Global};

/// Whether some point inside the cube is strictly on the named side of each plane. With no half it is so.
pub fn open_point(alloc: Global, halves: &[Half]) -> Result<bool, AllocError>
    ensures { IfOk result (λ found. IsTrue found ↔ HasPoint (cell_of_halves halves.now)) }
{
    let left = Body::within(alloc, halves)?;
    Ok(left.is_some())
}
