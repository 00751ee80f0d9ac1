//! The rounds of a walk or of a search, frame by frame.

ghost use Rattle.std.specs.Prelude.{ℕ, ◌≡◌, ◌<◌, Bool, List, [], length, IfOk, OnOk};
ghost use Rattle.std.specs.Bool.{then_some};
ghost use Rattle.qm_contacts.specs.OwnPortals.{HasOwnPortals};
ghost use Rattle.qm_chains.specs.inner.Walk.{AreWide};
ghost use Rattle.qm_sight.specs.WordInSight.{LieWithin};
ghost use Rattle.qm_flow.specs.inner.FlowPairs.{pairs_of};
ghost use Rattle.qm_flow.specs.inner.FlowGoesOn.{FlowGoesOn};
ghost use Rattle.qm_flow.specs.inner.OfWorld.{AreOfWorld};
ghost use Rattle.qm_flow.specs.inner.Round.{AreReady, IsRound, IsTry};
ghost use Rattle.qm_flow.specs.inner.Spares.{AreSparesWide};
ghost use Rattle.qm_flow.specs.inner.WalkSoFar.{IsWalkSoFar, IsSomeWalk};

use crate::flow_state::Flow;
use crate::frame::Frame;
use crate::frame_stack::FrameStack;
use crate::room::Room;
use crate::tries::try_portal;
use qm_bits::BitRow;
use qm_sight::RowSource;
use std::alloc::AllocError;

/// How a portal is tried at the last frame of a walk or of a search.
pub(crate) trait Tries<'a> {
    ghost use Rattle.qm_flow.specs.declared.flow_state.Flow.{Flow};

    /// What is known by then.
    ghost known: { Self → Flow };

    /// The flow that tries.
    fn flow(&self) -> &Flow<'a>
        ensures { result.now ≡ known self.now };

    /// Tries a portal at a frame: whether the chain goes on and may still show a leaf that was not found, and then the next frame
    /// is its own. The leaf that the portal enters is found, where the frame may show it.
    fn try_at<S: RowSource>(
        &mut self,
        source: &mut S,
        frame: &Frame<'a>,
        portal: u64,
        found: &mut BitRow,
        room: &mut Room<'a>,
    ) -> Result<bool, AllocError>
        requires portal { portal < length (known self.old).world.now.portals }
        requires own_portals { HasOwnPortals (known self.old).world.now }
        requires of_world { AreOfWorld (known self.old).world.now (S.world source.old) (pairs_of (known self.old)) frame.now found.old }
        requires spares { AreWide (known self.old).world.now room.old.next room.old.scratch.cone }
        ensures tried { IfOk result (λ on. IsTry (known self.old).world.now (S.ceilings source.old) (pairs_of (known self.old)) frame.now portal found.old found.new (then_some on room.new.next)) }
        ensures spares { OnOk result (AreWide (known self.old).world.now room.new.next room.new.scratch.cone) }
        ensures flow { OnOk result (FlowGoesOn (S.ceilings source.old) found.new (known self.old) (known self.new)) }
        ensures on { S.goes_on source.old source.new };
}

impl<'a> Tries<'a> for Flow<'a> {
    ghost known = { λ flow. flow };

    fn flow(&self) -> &Flow<'a> {
        self
    }

    fn try_at<S: RowSource>(
        &mut self,
        source: &mut S,
        frame: &Frame<'a>,
        portal: u64,
        found: &mut BitRow,
        room: &mut Room<'a>,
    ) -> Result<bool, AllocError> {
        try_portal(self, source, frame, portal, found, room)
    }
}

/// One round: a portal is tried at the last frame, or none is left there.
pub(crate) fn go_round<'a, T: Tries<'a>, S: RowSource>(
    tries: &mut T,
    source: &mut S,
    found: &mut BitRow,
    stack: &mut FrameStack<'a>,
) -> Result<(), AllocError>
    requires own_portals { HasOwnPortals (T.known tries.old).world.now }
    requires same_world { S.world source.old ≡ (T.known tries.old).world.now }
    requires ready { AreReady (T.known tries.old).world.now (pairs_of (T.known tries.old)) stack.old.frames.items found.old }
    requires not_ended { 0 < length stack.old.frames.items }
    requires spares { AreSparesWide (T.known tries.old).world.now stack.old }
    ensures round { OnOk result (IsRound (T.known tries.old).world.now (S.ceilings source.old) (pairs_of (T.known tries.old)) stack.old.frames.items stack.new.frames.items found.old found.new) }
    ensures spares { OnOk result (AreSparesWide (T.known tries.old).world.now stack.new) }
    ensures flow { OnOk result (FlowGoesOn (S.ceilings source.old) found.new (T.known tries.old) (T.known tries.new)) }
    ensures on { S.goes_on source.old source.new }
{
    let last = stack.frames.len() - 1;
    match stack.frames[last].take_next() {
        None => stack.end_last(),
        Some(portal) => {
            let frame = &stack.frames[last];
            let on = tries.try_at(source, frame, portal, found, &mut stack.room)?;
            if !on {
                return Ok(());
            }
            let flow = tries.flow();
            stack.push_next(flow.alloc, flow.world, flow.first)
        }
    }
}

/// Goes on until no frame is left, and gives the row of what is found.
pub(crate) fn end_walk<'a, S: RowSource>(
    flow: &mut Flow<'a>,
    source: &mut S,
    mut found: BitRow,
    stack: &mut FrameStack<'a>,
) -> Result<BitRow, AllocError>
    requires own_portals { HasOwnPortals flow.old.world.now }
    requires same_world { S.world source.old ≡ flow.old.world.now }
    requires walk { IsSomeWalk flow.old.world.now (S.ceilings source.old) (pairs_of flow.old) stack.old.frames.items found }
    requires spares { AreSparesWide flow.old.world.now stack.old }
    ensures walk { IfOk result (λ ended. (p : ℕ) (ceilings : List (List Bool)) → LieWithin (S.ceilings source.old) ceilings →
        IsWalkSoFar flow.old.world.now ceilings p (pairs_of flow.old) stack.old.frames.items found →
        IsWalkSoFar flow.old.world.now ceilings p (pairs_of flow.new) [] ended) }
    ensures on { S.goes_on source.old source.new }
{
    while !stack.frames.is_empty() {
        go_round(flow, source, &mut found, stack)?;
    }
    Ok(found)
}
