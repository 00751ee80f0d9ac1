//! The row of a pair: what may be seen from the first portal via the other one.

ghost use Rattle.std.specs.Prelude.{ℕ, ◌≡◌, ◌<◌, length, OnOk};
ghost use Rattle.qm_lists.specs.WorkList.{IsIn};
ghost use Rattle.qm_contacts.specs.NumberedLeaves.{numbered_leaves};
ghost use Rattle.qm_contacts.specs.OwnPortals.{HasOwnPortals};
ghost use Rattle.qm_chains.specs.inner.OwnRows.{AreOwnRows, CanHave};
ghost use Rattle.qm_chains.specs.inner.Pairs.{IsPairRow};
ghost use Rattle.qm_sight.specs.WordInSight.{ceiling_of};
ghost use Rattle.qm_chains.specs.inner.Walk.{AreWide};
ghost use Rattle.qm_flow.specs.inner.FlowPairs.{pairs_of};
ghost use Rattle.qm_flow.specs.inner.OfWorld.{AreOfWorld};
ghost use Rattle.qm_flow.specs.inner.PairFrame.{IsPairFrame};
ghost use Rattle.qm_flow.specs.inner.FlowGoesOn.{FlowGoesOn};

use crate::cone::cone_of;
use crate::flow_state::Flow;
use crate::frame::Frame;
use crate::masks::narrow;
use crate::room::Room;
use qm_bits::BitRow;
use qm_narrow::step_into;
use qm_sight::RowSource;
use std::alloc::AllocError;

/// Makes the row of the pair with a portal. The frame of their chain is made in a spare one.
pub(crate) fn pair<'a, S: RowSource>(
    flow: &mut Flow<'a>,
    source: &mut S,
    portal: u64,
    found: &BitRow,
    room: &mut Room<'a>,
) -> Result<(), AllocError>
    requires portal { portal < length flow.old.world.now.portals }
    requires own_portals { HasOwnPortals flow.old.world.now }
    requires of_world { AreOfWorld flow.old.world.now (S.world source.old) (pairs_of flow.old) room.old.next found.now }
    requires cone { length room.old.scratch.cone ≡ length (numbered_leaves flow.old.world.now.tree) }
    ensures flow { OnOk result (FlowGoesOn (S.ceilings source.old) found.now flow.old flow.new) }
    ensures spares { OnOk result (AreWide flow.old.world.now room.new.next room.new.scratch.cone) }
    ensures on { S.goes_on source.old source.new }
{
    cone_of_pair(flow, source, portal, found, room)?;
    let mut row = BitRow::with_len(flow.alloc, flow.world.leaves())?;
    row.copy_from(&room.scratch.cone);
    flow.own.put(portal, row)?;
    Ok(())
}

/// Makes the row for cones that of the pair with a portal: what the cone of the chain with these two has of its mask, and no
/// leaf where the step blocks.
fn cone_of_pair<'a, S: RowSource>(
    flow: &Flow<'a>,
    source: &mut S,
    portal: u64,
    found: &BitRow,
    room: &mut Room<'a>,
) -> Result<(), AllocError>
    requires portal { portal < length flow.now.world.now.portals }
    requires own_portals { HasOwnPortals flow.now.world.now }
    requires of_world { AreOfWorld flow.now.world.now (S.world source.old) (pairs_of flow.now) room.old.next found.now }
    requires cone { length room.old.scratch.cone ≡ length (numbered_leaves flow.now.world.now.tree) }
    ensures has { OnOk result (IsPairRow flow.now.world.now flow.now.first found.now portal room.new.scratch.cone) }
    ensures within { OnOk result ((n : ℕ) → IsIn room.new.scratch.cone n → CanHave (ceiling_of (S.ceilings source.old) portal) flow.now.own portal n) }
    ensures spares { OnOk result (AreWide flow.now.world.now room.new.next room.new.scratch.cone) }
    ensures on { S.goes_on source.old source.new }
{
    let spare = &mut room.next;
    let scratch = &mut room.scratch;
    let start = flow.start.state();
    let pane = flow.world.pane(portal);
    let buffers = &mut scratch.steps;
    let leads = step_into(flow.alloc, buffers, &mut spare.state, start, pane)?;
    if !leads {
        scratch.cone.clear();
        return Ok(());
    }
    make_pair_frame(flow, source, portal, spare);
    let entered = flow.world.to(portal);
    cone_of(flow, source, spare, found, entered, scratch)?;
    scratch.cone.and_row(&spare.mask);
    Ok(())
}

/// Makes a frame that of the chain with both portals of a pair, in whose state it is: it has met the leaves that they leave and
/// enter.
pub(crate) fn make_pair_frame<'a, S: RowSource>(
    flow: &Flow<'a>,
    source: &mut S,
    portal: u64,
    frame: &mut Frame<'a>,
)
    requires portal { portal < length flow.now.world.now.portals }
    requires same_world { S.world source.old ≡ flow.now.world.now }
    requires first { flow.now.first < length flow.now.world.now.portals }
    requires own { AreOwnRows flow.now.world.now flow.now.own }
    requires wide { AreWide flow.now.world.now frame.old flow.now.seen }
    ensures frame { IsPairFrame flow.now.world.now (ceiling_of (S.ceilings source.old) portal) (pairs_of flow.now) frame.old.state portal frame.new }
    ensures on { S.goes_on source.old source.new }
{
    let world = flow.world;
    frame.mask.copy_from(&flow.seen);
    narrow(&flow.own, source, portal, &mut frame.mask);
    let first = flow.first;
    frame.met.clear();
    frame.met.set(world.from(first));
    frame.met.set(world.to(first));
    frame.met.set(world.from(portal));
    frame.met.set(world.to(portal));
}
