//! A line is followed from leaf to leaf.

ghost use Rattle.std.specs.Prelude.{ℕ, ◌≡◌, ◌<◌, ◌⊎◌, true, length, All, slice_set, IfSome};
ghost use Rattle.qm_contacts.specs.NumberedLeaves.{numbered_leaves};
ghost use Rattle.qm_contacts.specs.Portals.{Portal};
ghost use Rattle.qm_contacts.specs.OwnPortals.{HasOwnPortals};
ghost use Rattle.qm_chains.specs.Shown.{IsAt};
ghost use Rattle.qm_sight.specs.InCeiling.{IsInCeiling};
ghost use Rattle.qm_lines.specs.Gained.{HasGainedShown};
ghost use Rattle.qm_lines.specs.inner.Trace.{IsTrace, IsOnward, AreInRange};

use crate::crossing::Crossing;
use crate::exits::Exits;
use crate::line::Line;
use crate::reading::all_have_leaf;
use crate::trace::Trace;
use qm_bits::BitRow;
use qm_portal::World;
use qm_sight::{RowSource, has_leaf};
use std::alloc::AllocError;

/// The portal that is next on a line, and where the line goes through it.
#[derive(Clone, Copy)]
pub(crate) struct Onward {
    portal: u64,
    crossing: Crossing,
}

/// A line through a world, and the leaf at which it is aimed.
#[derive(Clone, Copy)]
pub(crate) struct Course<'a> {
    pub(crate) world: &'a World,
    pub(crate) line: &'a Line,
    pub(crate) target: u64,
}

/// Follows a line from leaf to leaf, as far as it goes through portals whose rows have its target, and sets each leaf in a row
/// that all portals on the way may show.
pub(crate) fn follow<S: RowSource>(
    course: &Course,
    source: &mut S,
    exits: &mut Exits,
    trace: &mut Trace,
    row: &mut BitRow,
) -> Result<(), AllocError>
    requires target { course.now.target < length (numbered_leaves course.now.world.now.tree) }
    requires own_portals { HasOwnPortals course.now.world.now }
    requires same_world { S.world source.old ≡ course.now.world.now }
    requires range { AreInRange course.now.world.now trace.old }
    requires row { length row.old ≡ length (numbered_leaves course.now.world.now.tree) }
    ensures shown { (p : ℕ) → IsTrace course.now.world.now p course.now.line.now trace.old →
        HasGainedShown course.now.world.now.portals (IsInCeiling (S.ceilings source.old)) p row.old row.new }
    ensures on { S.goes_on source.old source.new }
{
    show(source, trace, row);
    for _ in 0..course.world.leaves() {
        match next_portal(course, source, exits, trace) {
            None => return Ok(()),
            Some(next) => {
                trace.enter(course.world, next.portal, next.crossing)?;
                show(source, trace, row);
            }
        }
    }
    Ok(())
}

/// Sets the leaf in which a line is, where the rows of all portals that it passed have it.
fn show<S: RowSource>(source: &mut S, trace: &Trace, row: &mut BitRow)
    requires range { AreInRange (S.world source.old) trace.now }
    requires row { length row.old ≡ length (numbered_leaves (S.world source.old).tree) }
    ensures shown { (row.new ≡ row.old) ⊎ (All (IsInCeiling (S.ceilings source.old) trace.now.leaf) trace.now.passed.items × (row.new ≡ slice_set row.old trace.now.leaf true)) }
    ensures on { S.goes_on source.old source.new }
{
    if row.get(trace.leaf) {
        return;
    }
    if all_have_leaf(source, &trace.passed, trace.leaf) {
        row.set(trace.leaf);
    }
}

/// The portal that is next on a line, of those whose rows have a target: the one by which a line left the leaf last is tried
/// first.
fn next_portal<S: RowSource>(
    course: &Course,
    source: &mut S,
    exits: &mut Exits,
    trace: &Trace,
) -> Option<Onward>
    requires target { course.now.target < length (numbered_leaves course.now.world.now.tree) }
    requires own_portals { HasOwnPortals course.now.world.now }
    requires same_world { S.world source.old ≡ course.now.world.now }
    requires range { AreInRange course.now.world.now trace.now }
    ensures next { IfSome result (λ next. IsOnward course.now.world.now course.now.line.now trace.now next.portal next.crossing) }
    ensures on { S.goes_on source.old source.new }
{
    if let Some(next) = by_last_exit(course, source, exits, trace) {
        return Some(next);
    }
    let next = any_onward(course, source, trace)?;
    exits.note(trace.leaf, next.portal);
    Some(next)
}

/// The portal by which a line left the leaf last, if it is next.
fn by_last_exit<S: RowSource>(
    course: &Course,
    source: &mut S,
    exits: &Exits,
    trace: &Trace,
) -> Option<Onward>
    requires target { course.now.target < length (numbered_leaves course.now.world.now.tree) }
    requires own_portals { HasOwnPortals course.now.world.now }
    requires same_world { S.world source.old ≡ course.now.world.now }
    ensures next { IfSome result (λ next. IsOnward course.now.world.now course.now.line.now trace.now next.portal next.crossing) }
    ensures on { S.goes_on source.old source.new }
{
    match exits.of_leaf(course.world, trace.leaf) {
        None => None,
        Some(portal) => onward_by(course, source, trace, portal),
    }
}

/// The portal that is next, of those that leave the leaf.
fn any_onward<S: RowSource>(course: &Course, source: &mut S, trace: &Trace) -> Option<Onward>
    requires target { course.now.target < length (numbered_leaves course.now.world.now.tree) }
    requires own_portals { HasOwnPortals course.now.world.now }
    requires same_world { S.world source.old ≡ course.now.world.now }
    requires range { AreInRange course.now.world.now trace.now }
    ensures next { IfSome result (λ next. IsOnward course.now.world.now course.now.line.now trace.now next.portal next.crossing) }
    ensures on { S.goes_on source.old source.new }
{
    for portal in course.world.leaving(trace.leaf) {
        if let Some(next) = onward_by(course, source, trace, *portal) {
            return Some(next);
        }
    }
    None
}

/// A portal that leaves the leaf, if its row has the target and the line goes through it further on.
fn onward_by<S: RowSource>(
    course: &Course,
    source: &mut S,
    trace: &Trace,
    portal: u64,
) -> Option<Onward>
    requires target { course.now.target < length (numbered_leaves course.now.world.now.tree) }
    requires own_portals { HasOwnPortals course.now.world.now }
    requires same_world { S.world source.old ≡ course.now.world.now }
    requires leaves { (q : Portal) × IsAt course.now.world.now.portals portal q × (q.from ≡ trace.now.leaf) }
    ensures next { IfSome result (λ next. IsOnward course.now.world.now course.now.line.now trace.now next.portal next.crossing) }
    ensures on { S.goes_on source.old source.new }
{
    if !has_leaf(source, portal, course.target) {
        return None;
    }
    match further(course, trace, portal) {
        None => None,
        Some(crossing) => Some(Onward { portal, crossing }),
    }
}

/// Where a line goes through a portal, if that is further on and into a leaf in which the line was not.
fn further(course: &Course, trace: &Trace, portal: u64) -> Option<Crossing>
    requires portal { portal < length course.now.world.now.portals }
    requires own_portals { HasOwnPortals course.now.world.now }
    requires leaves { (q : Portal) × IsAt course.now.world.now.portals portal q × (q.from ≡ trace.now.leaf) }
    ensures { IfSome result (IsOnward course.now.world.now course.now.line.now trace.now portal) }
{
    let pane = course.world.pane(portal);
    let crossing = Crossing::of_plane(course.line, &pane.into)?;
    if !crossing.is_within(course.line, pane.winding.edges()) {
        return None;
    }
    if trace.has_met(course.world.to(portal)) {
        return None;
    }
    if !crossing.is_beyond(trace.last) {
        return None;
    }
    Some(crossing)
}
