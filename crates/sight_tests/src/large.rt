//! Separators with large normals, up to the largest one that a separator may have, and beyond.

use crate::doorways::is_this;
use crate::shapes::{across_x, across_y, across_z, cut_by};
use qm_narrow::separators;
use qm_space::WORLD_EXTENT;
use qm_wind::{Side, Winding};
use std::alloc::{AllocError, Global};

/// How long two steps are, and whether the plane along both is a separator. The largest component of its normal is the square
/// of that length.
static ROWS: [(i32, bool); 4] = [(100, true), (8191, true), (8192, true), (8193, false)];

/// Where both steps begin, on each axis but z.
const LOW: i32 = -4096;

/// A triangle with an edge that goes from where the steps begin so far along y, and 1 up.
fn source(alloc: Global, end: i32) -> Result<Winding, AllocError> {
    cut_by(
        alloc,
        [[LOW, LOW, 0], [LOW, end, 1], [LOW + 8, end, 0]],
        &[
            (across_x(LOW), Side::Front),
            (across_y(end), Side::Back),
            (across_z(0), Side::Front),
        ],
    )
}

/// A winding with a corner so far along x, and 1 along y.
fn pass(alloc: Global, end: i32) -> Result<Winding, AllocError> {
    let near = end.wrapping_sub(8);
    cut_by(
        alloc,
        [[near, LOW, 0], [end, LOW + 1, 0], [end, LOW + 1, 8]],
        &[
            (across_y(LOW), Side::Front),
            (across_y(LOW + 1), Side::Back),
            (across_z(0), Side::Front),
            (across_z(8), Side::Back),
        ],
    )
}

/// Whether the plane along both steps is a separator.
fn is_listed(alloc: Global, long: i32) -> Result<bool, AllocError> {
    let end = long.wrapping_add(LOW);
    let near = source(alloc, end)?;
    let far = pass(alloc, end)?;
    let planes = separators(alloc, &near, &far)?;
    let distance = i64::from(LOW).wrapping_mul(1_i64.wrapping_sub(i64::from(long)));
    let numbers = (1, long.wrapping_neg(), long.wrapping_mul(long), distance);
    let mut found = false;
    for plane in planes.as_slice() {
        found = found || is_this(plane, numbers);
    }
    Ok(found)
}

/// Whether all rows of which the points lie in the cube are right.
pub(crate) fn are_right(alloc: Global) -> Result<bool, AllocError> {
    let mut right = true;
    for (long, listed) in &ROWS {
        if long.wrapping_add(LOW) <= WORLD_EXTENT {
            right &= is_listed(alloc, *long)? == *listed;
        }
    }
    Ok(right)
}
