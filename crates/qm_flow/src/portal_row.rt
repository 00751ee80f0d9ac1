//! The walk of open chains from one portal.

ghost use Rattle.std.specs.Prelude.{ℕ, ◌≡◌, ◌<◌, Bool, List, length, IfOk};
ghost use Rattle.qm_lists.specs.WorkList.{IsIn};
ghost use Rattle.qm_contacts.specs.NumberedLeaves.{numbered_leaves};
ghost use Rattle.qm_contacts.specs.Portals.{Portal};
ghost use Rattle.qm_segments.specs.Sight.{IsSoundRow};
ghost use Rattle.qm_contacts.specs.OwnPortals.{HasOwnPortals};
ghost use Rattle.qm_chains.specs.Shown.{IsAt, IsShown};
ghost use Rattle.qm_sight.specs.InCeiling.{IsInCeiling};
ghost use Rattle.qm_sight.specs.WordInSight.{LieWithin};
ghost use Rattle.qm_flow.specs.inner.FlowPairs.{pairs_of};
ghost use Rattle.qm_flow.specs.inner.BegunPairs.{ArePairsBegun};
ghost use Rattle.qm_flow.specs.inner.FreshStack.{IsFreshStack};
ghost use Rattle.qm_flow.specs.inner.FirstMask.{IsFirstMask, IsSomeFirstMask};
ghost use Rattle.qm_flow.specs.inner.WalkSoFar.{HasEnded};

use crate::bars::bar_unseen;
use crate::flow_state::Flow;
use crate::frame_stack::FrameStack;
use crate::masks::find;
use crate::rounds::end_walk;
use qm_bits::BitRow;
use qm_lines::{LineStore, show_by_lines};
use qm_portal::World;
use qm_sight::RowSource;
use std::alloc::{AllocError, Global};

/// The row of a portal, over any source of rows: it has each leaf in sight of the portal, and a leaf only by an open chain,
/// each of whose portals, the first included, had it in its ceiling when the flow began. Two reads of one word may differ.
/// After want of memory too the source goes on from what it was. Lines of earlier flows are tried first; nothing rests on them.
pub fn flow<S: RowSource>(
    alloc: Global,
    world: &World,
    source: &mut S,
    portal: u64,
    lines: &mut LineStore,
) -> Result<BitRow, AllocError>
    requires portal_in_range { portal < length world.now.portals }
    requires same_world { S.world source.old ≡ world.now }
    ensures wide { IfOk result (λ row. length row ≡ length (numbered_leaves world.now.tree)) }
    ensures sound { IfOk result (λ row. (first : Portal) → IsAt world.now.portals portal first → IsSoundRow world.now.tree first row) }
    ensures open_chains { IfOk result (λ row. (n : ℕ) → IsIn row n → IsShown world.now.portals (IsInCeiling (S.ceilings source.old) n) portal n) }
    ensures on { S.goes_on source.old source.new }
{
    world.own_portals();
    let mut flow = Flow::of(alloc, world, source, portal)?;
    let mut stack = FrameStack::of(alloc, world, portal)?;
    walk(&mut flow, source, portal, lines, &mut stack)
}

/// The walk begins with the frame of the first portal, which may show what may be in sight of it. The leaf that the portal enters
/// is found, where it may be seen, and what lines show; then portals are barred by the rows of portals back, and then the walk
/// goes on to its end.
fn walk<'a, S: RowSource>(
    flow: &mut Flow<'a>,
    source: &mut S,
    portal: u64,
    lines: &mut LineStore,
    stack: &mut FrameStack<'a>,
) -> Result<BitRow, AllocError>
    requires portal { portal < length flow.old.world.now.portals }
    requires own_portals { HasOwnPortals flow.old.world.now }
    requires same_world { S.world source.old ≡ flow.old.world.now }
    requires begun { ArePairsBegun flow.old.world.now portal (pairs_of flow.old) }
    requires seen { IsSomeFirstMask flow.old.world.now (S.ceilings source.old) portal flow.old.seen }
    requires fresh { IsFreshStack flow.old.world.now portal stack.old }
    ensures walk { IfOk result (λ row. (ceilings : List (List Bool)) → LieWithin (S.ceilings source.old) ceilings → IsFirstMask flow.old.world.now ceilings portal flow.old.seen →
        HasEnded flow.old.world.now ceilings portal row) }
    ensures on { S.goes_on source.old source.new }
{
    let alloc = flow.alloc;
    let world = flow.world;
    stack.room.next.mask.copy_from(&flow.seen);
    stack.push_next(alloc, world, portal)?;
    let mut found = BitRow::with_len(alloc, world.leaves())?;
    find(&mut found, &flow.seen, world.to(portal));
    show_by_lines(alloc, world, source, portal, lines, &mut found)?;
    bar_unseen(flow, source);
    end_walk(flow, source, found, stack)
}
