//! Three rooms round a corner, with a doorway between each two: the first room, behind x = -16, leads into the second
//! one, and that, behind y = 64, into the third.

ghost use Rattle.std.specs.Prelude.{IfOk};
ghost use Rattle.qm_wind.specs.Entered.{IsPane};

use crate::large::are_right;
use crate::shapes::{across_x, across_y, across_z, cut_by};
use qm_geom::Plane;
use qm_narrow::{ChainState, StepBuffers, may_pass, separators, step, step_into};
use qm_wind::{Pane, Side};
use std::alloc::{AllocError, Global};
use std::test::Fail;

/// The first doorway, where it begins or ends.
fn first(alloc: Global, x: i32) -> Result<Pane, AllocError>
    ensures { IfOk result IsPane }
{
    let opening = cut_by(
        alloc,
        across_x(x),
        &[
            (across_y(-64), Side::Front),
            (across_y(-32), Side::Back),
            (across_z(0), Side::Front),
            (across_z(64), Side::Back),
        ],
    )?;
    Ok(Pane::entering(opening, Side::Front))
}

/// Where the second doorway begins.
fn second(alloc: Global) -> Result<Pane, AllocError> {
    let opening = cut_by(
        alloc,
        across_y(64),
        &[
            (across_x(0), Side::Front),
            (across_x(32), Side::Back),
            (across_z(0), Side::Front),
            (across_z(64), Side::Back),
        ],
    )?;
    Ok(Pane::entering(opening, Side::Front))
}

pub(crate) fn is_this(plane: &Plane, numbers: (i32, i32, i32, i64)) -> bool {
    plane.nx == numbers.0 && plane.ny == numbers.1 && plane.nz == numbers.2 && plane.d == numbers.3
}

/// Whether one of the separators of the first doorway's begin and end goes from its left side to its right.
fn has_plane_across(alloc: Global) -> Result<bool, AllocError> {
    let near = first(alloc, -16)?;
    let far = first(alloc, 0)?;
    let planes = separators(alloc, &near.winding, &far.winding)?;
    let mut found = false;
    for plane in planes.as_slice() {
        found = found || is_this(plane, (2, -1, 0, 32));
    }
    Ok(found)
}

/// Whether steps lead through the end of the first doorway, and from there into the second; and whether a line may pass
/// into the second from the state before the first step, and from the one after it.
fn answers(alloc: Global) -> Result<[bool; 4], AllocError> {
    let near = first(alloc, -16)?;
    let far = first(alloc, 0)?;
    let next = second(alloc)?;
    let start = ChainState::start(alloc, &near)?;
    let Some(through) = step(alloc, &start, &far)? else {
        return Ok([false; 4]);
    };
    let leads_on = step(alloc, &through, &next)?.is_some();
    Ok([
        true,
        leads_on,
        may_pass(&start, &next),
        may_pass(&through, &next),
    ])
}

/// The same of steps that are put in the place of another state: the first one in that of a second start, and the next one
/// in that of the first start, which stays, since it blocks.
fn answers_in_place(alloc: Global) -> Result<[bool; 4], AllocError> {
    let near = first(alloc, -16)?;
    let far = first(alloc, 0)?;
    let next = second(alloc)?;
    let mut buffers = StepBuffers::new(alloc);
    let mut start = ChainState::start(alloc, &near)?;
    let mut spare = ChainState::start(alloc, &near)?;
    let leads = step_into(alloc, &mut buffers, &mut spare, &start, &far)?;
    let leads_on = step_into(alloc, &mut buffers, &mut start, &spare, &next)?;
    Ok([
        leads,
        leads_on,
        may_pass(&start, &next),
        may_pass(&spare, &next),
    ])
}

/// Whether a chain goes through the first doorway, and not on into the second, by both forms of a step.
fn stops_at_second(alloc: Global) -> Result<bool, AllocError> {
    let expected = [true, false, true, false];
    Ok(answers(alloc)? == expected && answers_in_place(alloc)? == expected)
}

#[test]
fn separators_and_steps(rt: HostRuntime) -> Result<(), Fail> {
    let right = has_plane_across(rt.alloc())?
        && stops_at_second(rt.alloc())?
        && are_right(rt.alloc())?;
    assert!(rt; right);
    Ok(())
}
