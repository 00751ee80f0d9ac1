//! A chain goes on through a portal.

ghost use Rattle.std.specs.Prelude.{ℕ, ◌≡◌, ◌<◌, true, None, length, slice_set, IfOk, OnOk};
ghost use Rattle.std.specs.Bool.{then_some};
ghost use Rattle.qm_lists.specs.Unseen.{HasUnseen};
ghost use Rattle.qm_lists.specs.WorkList.{IsIn};
ghost use Rattle.qm_contacts.specs.NumberedLeaves.{numbered_leaves};
ghost use Rattle.qm_contacts.specs.OwnPortals.{HasOwnPortals};
ghost use Rattle.qm_contacts.specs.Portals.{Portal};
ghost use Rattle.qm_chains.specs.Shown.{IsAt};
ghost use Rattle.qm_chains.specs.inner.Walk.{AreWide};
ghost use Rattle.qm_flow.specs.inner.FlowPairs.{pairs_of};
ghost use Rattle.qm_flow.specs.inner.OfWorld.{AreOfWorld};
ghost use Rattle.qm_flow.specs.inner.Round.{IsTry, TriesBy};

use crate::cone::left_of;
use crate::flow_state::Flow;
use crate::frame::Frame;
use crate::masks::{find, has_new_beside, narrow};
use crate::room::Room;
use qm_bits::BitRow;
use qm_narrow::{StepBuffers, leads_on, step_into};
use qm_sight::RowSource;
use std::alloc::AllocError;

/// The chain of a frame goes on through a portal that enters a leaf in which it was not: whether the step does not block and
/// something new may be shown, and then the next frame is its own. The leaf that the portal enters is found, where the chain may
/// show it. Where nothing else is new, no frame is made.
pub(crate) fn go_through<'a, S: RowSource>(
    flow: &Flow<'a>,
    source: &mut S,
    frame: &Frame<'a>,
    portal: u64,
    found: &mut BitRow,
    room: &mut Room<'a>,
) -> Result<bool, AllocError>
    requires portal { portal < length flow.now.world.now.portals }
    requires own_portals { HasOwnPortals flow.now.world.now }
    requires of_world { AreOfWorld flow.now.world.now (S.world source.old) (pairs_of flow.now) frame.now found.old }
    requires spares { AreWide flow.now.world.now room.old.next room.old.scratch.cone }
    requires new { (q : Portal) → IsAt flow.now.world.now.portals portal q → IsIn frame.now.met q.to → ⊥ }
    ensures tried { IfOk result (λ on. IsTry flow.now.world.now (S.ceilings source.old) (pairs_of flow.now) frame.now portal found.old found.new (then_some on room.new.next)) }
    ensures spares { OnOk result (AreWide flow.now.world.now room.new.next room.new.scratch.cone) }
    ensures stays { (n : ℕ) → IsIn found.old n → IsIn found.new n }
    ensures on { S.goes_on source.old source.new }
{
    let next = &mut room.next;
    next.mask.copy_from(&frame.mask);
    narrow(&flow.own, source, portal, &mut next.mask);
    if has_new_beside(&next.mask, found, flow.world.to(portal)) {
        return enter_next(flow, source, frame, portal, found, room);
    }
    let buffers = &mut room.scratch.steps;
    find_alone(flow, frame, portal, &next.mask, found, buffers)?;
    Ok(false)
}

/// The leaf that a portal enters is found, where the chain may show it, and nothing else in the mask is new.
fn find_alone<'a>(
    flow: &Flow<'a>,
    frame: &Frame<'a>,
    portal: u64,
    mask: &BitRow,
    found: &mut BitRow,
    buffers: &mut StepBuffers,
) -> Result<(), AllocError>
    requires portal { portal < length flow.now.world.now.portals }
    requires of_world { AreOfWorld flow.now.world.now flow.now.world.now (pairs_of flow.now) frame.now found.old }
    requires mask { length mask.now ≡ length (numbered_leaves flow.now.world.now.tree) }
    requires new { (q : Portal) → IsAt flow.now.world.now.portals portal q → IsIn frame.now.met q.to → ⊥ }
    requires alone { (q : Portal) → IsAt flow.now.world.now.portals portal q → HasUnseen mask.now (slice_set found.old q.to true) → ⊥ }
    ensures tried { OnOk result (TriesBy flow.now.world.now (pairs_of flow.now) frame.now portal mask.now found.old found.new None) }
    ensures stays { (n : ℕ) → IsIn found.old n → IsIn found.new n }
{
    let pane = flow.world.pane(portal);
    let leads = leads_on(flow.alloc, buffers, &frame.state, pane)?;
    if !leads {
        return Ok(());
    }
    let entered = flow.world.to(portal);
    find(found, mask, entered);
    Ok(())
}

/// The next frame, whose mask is narrowed already, becomes that of the chain through a portal, where its step does not block:
/// whether something new may be shown then.
fn enter_next<'a, S: RowSource>(
    flow: &Flow<'a>,
    source: &mut S,
    frame: &Frame<'a>,
    portal: u64,
    found: &mut BitRow,
    room: &mut Room<'a>,
) -> Result<bool, AllocError>
    requires portal { portal < length flow.now.world.now.portals }
    requires own_portals { HasOwnPortals flow.now.world.now }
    requires of_world { AreOfWorld flow.now.world.now (S.world source.old) (pairs_of flow.now) frame.now found.old }
    requires spares { AreWide flow.now.world.now room.old.next room.old.scratch.cone }
    requires new { (q : Portal) → IsAt flow.now.world.now.portals portal q → IsIn frame.now.met q.to → ⊥ }
    ensures tried { IfOk result (λ on. TriesBy flow.now.world.now (pairs_of flow.now) frame.now portal room.old.next.mask found.old found.new (then_some on room.new.next)) }
    ensures spares { OnOk result (AreWide flow.now.world.now room.new.next room.new.scratch.cone) }
    ensures stays { (n : ℕ) → IsIn found.old n → IsIn found.new n }
    ensures on { S.goes_on source.old source.new }
{
    let next = &mut room.next;
    let scratch = &mut room.scratch;
    let pane = flow.world.pane(portal);
    let buffers = &mut scratch.steps;
    let leads = step_into(flow.alloc, buffers, &mut next.state, &frame.state, pane)?;
    if !leads {
        return Ok(false);
    }
    let entered = flow.world.to(portal);
    next.untried = flow.world.leaving(entered);
    next.met.copy_from(&frame.met);
    next.met.set(entered);
    find(found, &next.mask, entered);
    left_of(flow, source, next, found, entered, scratch)
}
