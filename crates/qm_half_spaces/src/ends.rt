//! The lesser and the greater of two ends.

ghost use Rattle.std.specs.Prelude.{◌<◌, pos, slice_index_or};
ghost use Rattle.qm_facets.specs.inner.Joined.{IsLowerEnd, IsHigherEnd};

/// The lesser of an end and the coordinate on an axis.
pub(crate) fn lower_end(old: i32, found: &[i32; 3], axis: usize) -> i32
    requires { axis < 3 }
    ensures { IsLowerEnd old (slice_index_or found.now axis (pos 0)) result }
{
    let coordinate = found[axis];
    if coordinate < old { coordinate } else { old }
}

/// The greater of the two.
pub(crate) fn higher_end(old: i32, found: &[i32; 3], axis: usize) -> i32
    requires { axis < 3 }
    ensures { IsHigherEnd old (slice_index_or found.now axis (pos 0)) result }
{
    let coordinate = found[axis];
    if coordinate > old { coordinate } else { old }
}
