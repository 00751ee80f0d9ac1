//! The leaves that lines show from a portal. Which of them are found is no promise, for speed alone is at stake: the contracts
//! say that a leaf is set only where an open chain shows it.

ghost use Rattle.std.specs.Prelude.{◌≡◌, ◌<◌, length, IsTrue};
ghost use Rattle.qm_contacts.specs.NumberedLeaves.{numbered_leaves};
ghost use Rattle.qm_sight.specs.InCeiling.{IsInCeiling};
ghost use Rattle.qm_lines.specs.Gained.{HasGainedShown};
ghost use Rattle.qm_lines.specs.inner.Drawing.{MayDraw, HasDrawn};

use crate::aiming::{Aim, anchors_of};
use crate::crossing::crossing_of;
use crate::first_portal::FirstPortal;
use crate::following::{Course, follow};
use crate::kept_lines::KeptLine;
use crate::line::Line;
use crate::line_store::LineStore;
use qm_bits::BitRow;
use qm_portal::World;
use qm_sight::{RowSource, has_leaf};
use std::alloc::{AllocError, Global};

/// Sets leaves in a portal's row to which straight lines lead through it, each by an open chain whose portals, the first
/// included, had it in their ceilings when this began. None is lost, and leaves in sight may be left out. After want of memory
/// too all of this holds, and the source goes on from what it was. Lines that earlier turns left in the store come first, and
/// some of its own are kept there for later turns.
pub fn show_by_lines<S: RowSource>(
    alloc: Global,
    world: &World,
    source: &mut S,
    portal: u64,
    store: &mut LineStore,
    row: &mut BitRow,
) -> Result<(), AllocError>
    requires portal { portal < length world.now.portals }
    requires same_world { S.world source.old ≡ world.now }
    requires row { length row.old ≡ length (numbered_leaves world.now.tree) }
    ensures shown { HasGainedShown world.now.portals (IsInCeiling (S.ceilings source.old)) portal row.old row.new }
    ensures on { S.goes_on source.old source.new }
{
    world.own_portals();
    let anchors = anchors_of(alloc, &world.pane(portal).winding)?;
    let mut gone = BitRow::with_len(alloc, world.leaves())?;
    let kept = store.begin(alloc, world, portal)?;
    let first = FirstPortal {
        world,
        portal,
        anchors: &anchors,
    };
    show_kept(&first, source, &kept, store, row)?;
    flood(&first, source, &mut gone, store, row)
}

/// Draws the lines that were kept for the portal.
fn show_kept<S: RowSource>(
    first: &FirstPortal,
    source: &mut S,
    kept: &[KeptLine],
    store: &mut LineStore,
    row: &mut BitRow,
) -> Result<(), AllocError>
    requires may_draw { MayDraw first.now (S.world source.old) row.old }
    ensures { HasDrawn first.now (S.ceilings source.old) (S.goes_on source.old source.new) row.old row.new }
{
    for one in kept {
        let target = one.target();
        if !is_wanted(first.world, row, target) {
            continue;
        }
        show_again(first, source, one, target, store, row)?;
    }
    Ok(())
}

/// Whether a row lacks a leaf of a world.
fn is_wanted(world: &World, row: &BitRow, leaf: u64) -> bool
    requires { length row.now ≡ length (numbered_leaves world.now.tree) }
    ensures { IsTrue result → leaf < length (numbered_leaves world.now.tree) }
{
    leaf < world.leaves() && !row.get(leaf)
}

/// Draws a line that was kept, towards a target.
fn show_again<S: RowSource>(
    first: &FirstPortal,
    source: &mut S,
    kept: &KeptLine,
    target: u64,
    store: &mut LineStore,
    row: &mut BitRow,
) -> Result<(), AllocError>
    requires may_draw { MayDraw first.now (S.world source.old) row.old }
    requires target { target < length (numbered_leaves first.now.world.now.tree) }
    ensures { HasDrawn first.now (S.ceilings source.old) (S.goes_on source.old source.new) row.old row.new }
{
    let line = kept.line();
    show_along(first, source, &line, target, store, row)?;
    let first_at = first.point_on(&line);
    store.note_shown(&Aim {
        first: first_at,
        second: kept.end(),
    });
    Ok(())
}

/// Goes on from the leaf that the portal enters, then from the leaves of the row that were not gone on from, and from those
/// that are shown by it, until none is left.
fn flood<S: RowSource>(
    first: &FirstPortal,
    source: &mut S,
    gone: &mut BitRow,
    store: &mut LineStore,
    row: &mut BitRow,
) -> Result<(), AllocError>
    requires may_draw { MayDraw first.now (S.world source.old) row.old }
    requires gone { length gone.old ≡ length row.old }
    ensures { HasDrawn first.now (S.ceilings source.old) (S.goes_on source.old source.new) row.old row.new }
{
    let entered = first.world.to(first.portal);
    gone.set(entered);
    aim_out(first, source, entered, store, row)?;
    for _ in 0..first.world.leaves() {
        if !row.has_new(gone) {
            return Ok(());
        }
        sweep(first, source, gone, store, row)?;
    }
    Ok(())
}

/// Goes on from each leaf of the row that was not gone on from, in the order of their numbers.
fn sweep<S: RowSource>(
    first: &FirstPortal,
    source: &mut S,
    gone: &mut BitRow,
    store: &mut LineStore,
    row: &mut BitRow,
) -> Result<(), AllocError>
    requires may_draw { MayDraw first.now (S.world source.old) row.old }
    requires gone { length gone.old ≡ length row.old }
    ensures drawn { HasDrawn first.now (S.ceilings source.old) (S.goes_on source.old source.new) row.old row.new }
    ensures gone { length gone.new ≡ length gone.old }
{
    for leaf in 0..first.world.leaves() {
        if !row.get(leaf) {
            continue;
        }
        if gone.get(leaf) {
            continue;
        }
        gone.set(leaf);
        aim_out(first, source, leaf, store, row)?;
    }
    Ok(())
}

/// Aims through each portal that leaves a leaf.
fn aim_out<S: RowSource>(
    first: &FirstPortal,
    source: &mut S,
    leaf: u64,
    store: &mut LineStore,
    row: &mut BitRow,
) -> Result<(), AllocError>
    requires may_draw { MayDraw first.now (S.world source.old) row.old }
    requires leaf { leaf < length (numbered_leaves first.now.world.now.tree) }
    ensures { HasDrawn first.now (S.ceilings source.old) (S.goes_on source.old source.new) row.old row.new }
{
    for other in first.world.leaving(leaf) {
        aim_through(first, source, *other, store, row)?;
    }
    Ok(())
}

/// Aims through another portal at the leaf that it enters, unless the row has that or rows rule it out.
fn aim_through<S: RowSource>(
    first: &FirstPortal,
    source: &mut S,
    other: u64,
    store: &mut LineStore,
    row: &mut BitRow,
) -> Result<(), AllocError>
    requires may_draw { MayDraw first.now (S.world source.old) row.old }
    requires other { other < length first.now.world.now.portals }
    ensures { HasDrawn first.now (S.ceilings source.old) (S.goes_on source.old source.new) row.old row.new }
{
    let target = first.world.to(other);
    if row.get(target) {
        return Ok(());
    }
    if !may_lead(first.world, source, first.portal, other, target) {
        return Ok(());
    }
    store.list_aims(first, other)?;
    aim_at(first, source, target, store, row)
}

/// Whether a line may lead through one portal and then another to a leaf: both rows have it, and a line may lead back.
fn may_lead<S: RowSource>(world: &World, source: &mut S, portal: u64, other: u64, leaf: u64) -> bool
    requires portal { portal < length world.now.portals }
    requires other { other < length world.now.portals }
    requires leaf { leaf < length (numbered_leaves world.now.tree) }
    requires same_world { S.world source.old ≡ world.now }
    ensures { S.goes_on source.old source.new }
{
    if !has_leaf(source, portal, leaf) {
        return false;
    }
    if !has_leaf(source, other, leaf) {
        return false;
    }
    may_lead_back(world, source, portal, world.back(other))
}

/// Whether a line may lead through a portal back to the one through which lines are drawn: the row of the portal back has both
/// leaves of that one.
fn may_lead_back<S: RowSource>(world: &World, source: &mut S, portal: u64, back: u64) -> bool
    requires portal { portal < length world.now.portals }
    requires back { back < length world.now.portals }
    requires same_world { S.world source.old ≡ world.now }
    ensures { S.goes_on source.old source.new }
{
    if !has_leaf(source, back, world.from(portal)) {
        return false;
    }
    has_leaf(source, back, world.to(portal))
}

/// Draws the lines that are listed, until the row has their target.
fn aim_at<S: RowSource>(
    first: &FirstPortal,
    source: &mut S,
    target: u64,
    store: &mut LineStore,
    row: &mut BitRow,
) -> Result<(), AllocError>
    requires may_draw { MayDraw first.now (S.world source.old) row.old }
    requires target { target < length (numbered_leaves first.now.world.now.tree) }
    ensures { HasDrawn first.now (S.ceilings source.old) (S.goes_on source.old source.new) row.old row.new }
{
    for place in 0..store.aims.len() {
        if row.get(target) {
            return Ok(());
        }
        let aim = match store.aim(place) {
            None => return Ok(()),
            Some(aim) => aim,
        };
        show_aim(first, source, &aim, target, store, row)?;
    }
    Ok(())
}

/// Draws a line towards a target. Where that is shown, the line is kept for later portals.
fn show_aim<S: RowSource>(
    first: &FirstPortal,
    source: &mut S,
    aim: &Aim,
    target: u64,
    store: &mut LineStore,
    row: &mut BitRow,
) -> Result<(), AllocError>
    requires may_draw { MayDraw first.now (S.world source.old) row.old }
    requires target { target < length (numbered_leaves first.now.world.now.tree) }
    ensures { HasDrawn first.now (S.ceilings source.old) (S.goes_on source.old source.new) row.old row.new }
{
    let line = aim.line();
    show_along(first, source, &line, target, store, row)?;
    store.note_shown(aim);
    if !row.get(target) {
        return Ok(());
    }
    store.keep(first.world, &line)
}

/// Sets the leaves that a line towards a target shows, if it goes through the portal.
fn show_along<S: RowSource>(
    first: &FirstPortal,
    source: &mut S,
    line: &Line,
    target: u64,
    store: &mut LineStore,
    row: &mut BitRow,
) -> Result<(), AllocError>
    requires may_draw { MayDraw first.now (S.world source.old) row.old }
    requires target { target < length (numbered_leaves first.now.world.now.tree) }
    ensures { HasDrawn first.now (S.ceilings source.old) (S.goes_on source.old source.new) row.old row.new }
{
    store.trace.clear();
    match crossing_of(first.world, first.portal, line) {
        None => Ok(()),
        Some(crossing) => {
            store.trace.begin(first.world, first.portal, crossing)?;
            let course = Course {
                world: first.world,
                line,
                target,
            };
            follow(&course, source, &mut store.exits, &mut store.trace, row)
        }
    }
}
