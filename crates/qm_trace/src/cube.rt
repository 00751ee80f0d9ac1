//! Whether points lie inside the cube of a bound.

ghost use Rattle.std.specs.Prelude.{◌≤◌, IsTrue, ◌↔◌, unsigned_abs};
ghost use Rattle.qm_space.specs.Bounds.{world_extent};
ghost use Rattle.qm_space.specs.InsideBound.{IsInsideBound};

use qm_geom::Point;

/// Whether both ends of a segment lie strictly inside the cube.
pub(crate) fn are_inside_bound(bound: u32, from: &Point, to: &Point) -> bool
    requires bound { bound ≤ world_extent }
    requires from_weight { unsigned_abs from.now.w ≤ 1000000 }
    requires to_weight { unsigned_abs to.now.w ≤ 1000000 }
    ensures { IsTrue result ↔ (IsInsideBound bound from.now × IsInsideBound bound to.now) }
{
    is_inside_bound(bound, from) && is_inside_bound(bound, to)
}

/// Whether a point lies strictly inside the cube: so does the coordinate that is farthest from 0.
fn is_inside_bound(bound: u32, at: &Point) -> bool
    requires bound { bound ≤ world_extent }
    requires weight { unsigned_abs at.now.w ≤ 1000000 }
    ensures { IsTrue result ↔ IsInsideBound bound at.now }
{
    let farthest = at
        .x
        .unsigned_abs()
        .max(at.y.unsigned_abs())
        .max(at.z.unsigned_abs());
    farthest < u64::from(bound) * at.w.unsigned_abs()
}
