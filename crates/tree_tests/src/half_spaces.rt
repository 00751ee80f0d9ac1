//! Whether half-spaces have a point of the cube in common.

use qm_brush::{Half, open_point};
use qm_geom::Plane;
use std::alloc::{AllocError, Global};
use std::test::Fail;

/// The half-space on one side of the plane across the x axis at a place. What is outside the cube counts as on its border.
fn across(at: i32, front: bool) -> Half {
    let at = at.clamp(-32768, 32768);
    match Plane::through_whole([at, 0, 0], [at, 1, 0], [at, 0, 1]) {
        Ok((plane, _)) => Half { plane, front },
        Err(_) => Half {
            plane: Plane::default(),
            front,
        },
    }
}

/// Up to two half-spaces by their places and sides, how many of the two count, and whether these have a point in common.
type Case = (usize, i32, bool, i32, bool, bool);

/// Beside one plane and between two, on one plane from both sides, apart, and on either side of the cube's faces.
static CASES: [Case; 9] = [
    (0, 0, true, 0, true, true),
    (1, 0, true, 0, true, true),
    (2, 0, true, 1, false, true),
    (2, 0, true, 0, false, false),
    (2, 1, true, 0, false, false),
    (1, 32768, true, 0, true, false),
    (1, 32768, false, 0, true, true),
    (1, -32768, true, 0, true, true),
    (1, -32768, false, 0, true, false),
];

fn is_right(alloc: Global, case: &Case) -> Result<bool, AllocError> {
    let (count, first, first_front, second, second_front, open) = *case;
    let mut halves = Vec::new(alloc);
    if count > 0 {
        halves.push(across(first, first_front))?;
    }
    if count > 1 {
        halves.push(across(second, second_front))?;
    }
    Ok(open_point(alloc, &halves)? == open)
}

fn all_are_right(alloc: Global, cases: &[Case]) -> Result<bool, AllocError> {
    let mut right = true;
    for case in cases {
        right &= is_right(alloc, case)?;
    }
    Ok(right)
}

#[test]
fn half_spaces_have_a_point_in_common(rt: HostRuntime) -> Result<(), Fail> {
    assert!(rt; all_are_right(rt.alloc(), &CASES)?);
    Ok(())
}
