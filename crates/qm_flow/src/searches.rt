//! A search for what is seen from the first portal via another one.

ghost use Rattle.std.specs.Prelude.{ℕ, ◌≡◌, ◌<◌, Bool, List, [], true, length, option_to_list, IfOk, OnOk};
ghost use Rattle.std.specs.Bool.{then_some};
ghost use Rattle.qm_lists.specs.WorkList.{IsIn};
ghost use Rattle.qm_contacts.specs.NumberedLeaves.{numbered_leaves};
ghost use Rattle.qm_contacts.specs.OwnPortals.{HasOwnPortals};
ghost use Rattle.qm_chains.specs.inner.Pairs.{ArePairs};
ghost use Rattle.qm_chains.specs.inner.Walk.{AreWide};
ghost use Rattle.qm_chains.specs.inner.Wanted.{IsWantedVia};
ghost use Rattle.qm_flow.specs.inner.FlowPairs.{pairs_of};
ghost use Rattle.qm_flow.specs.inner.OfWorld.{AreOfWorld};
ghost use Rattle.qm_flow.specs.inner.FlowGoesOn.{FlowGoesOn};
ghost use Rattle.qm_flow.specs.inner.Round.{IsTry};
ghost use Rattle.qm_flow.specs.inner.SearchSoFar.{IsSearchVia, IsSomeSearch};
ghost use Rattle.qm_flow.specs.inner.Spares.{AreSparesWide};

use crate::cheap_tests::passes_cheap_tests;
use crate::flow_state::Flow;
use crate::frame::Frame;
use crate::frame_stack::FrameStack;
use crate::masks::{find, narrow};
use crate::pair_rows::make_pair_frame;
use crate::room::Room;
use crate::rounds::{Tries, go_round};
use crate::step::go_through;
use qm_bits::BitRow;
use qm_narrow::step_into;
use qm_sight::RowSource;
use std::alloc::AllocError;

/// How many rounds a search may take.
const ROUNDS: u64 = 1_024;

/// Narrows the row of the pair with a portal by a search from this pair on. Where that has not ended after some rounds, nothing is
/// changed. What it sights is not shown by an open chain, and serves for nothing else.
pub(crate) fn search<'a, S: RowSource>(
    flow: &mut Flow<'a>,
    source: &mut S,
    portal: u64,
    found: &BitRow,
) -> Result<(), AllocError>
    requires portal { portal < length flow.old.world.now.portals }
    requires own_portals { HasOwnPortals flow.old.world.now }
    requires same_world { S.world source.old ≡ flow.old.world.now }
    requires pairs { ArePairs flow.old.world.now found.now (pairs_of flow.old) }
    requires wide { length found.now ≡ length (numbered_leaves flow.old.world.now.tree) }
    ensures flow { OnOk result (FlowGoesOn (S.ceilings source.old) found.now flow.old flow.new) }
    ensures on { S.goes_on source.old source.new }
{
    let mut sighted = BitRow::with_len(flow.alloc, flow.world.leaves())?;
    sighted.copy_from(found);
    let ended = seek(flow, source, portal, &mut sighted)?;
    if ended {
        narrow(&flow.own, source, portal, &mut sighted);
        flow.own.put(portal, sighted)?;
    }
    Ok(())
}

/// Seeks what is wanted via a portal, beside what was sighted before: whether that has ended after some rounds, and then all of it
/// is sighted.
fn seek<'a, S: RowSource>(
    flow: &Flow<'a>,
    source: &mut S,
    portal: u64,
    sighted: &mut BitRow,
) -> Result<bool, AllocError>
    requires portal { portal < length flow.now.world.now.portals }
    requires own_portals { HasOwnPortals flow.now.world.now }
    requires same_world { S.world source.old ≡ flow.now.world.now }
    requires pairs { ArePairs flow.now.world.now sighted.old (pairs_of flow.now) }
    requires wide { length sighted.old ≡ length (numbered_leaves flow.now.world.now.tree) }
    ensures ended { IfOk result (λ ended. ended ≡ true → (n : ℕ) → IsWantedVia flow.now.world.now flow.now.first sighted.old portal n → IsIn sighted.new n) }
    ensures wide { OnOk result (length sighted.new ≡ length sighted.old) }
    ensures on { S.goes_on source.old source.new }
{
    let mut stack = FrameStack::of(flow.alloc, flow.world, portal)?;
    begin(flow, source, portal, sighted, &mut stack)?;
    let mut looks = Looks { flow };
    end_soon(&mut looks, source, sighted, &mut stack)
}

/// The search begins with the frame of the pair with a portal, where the step straight to the portal does not block.
fn begin<'a, S: RowSource>(
    flow: &Flow<'a>,
    source: &mut S,
    portal: u64,
    sighted: &mut BitRow,
    stack: &mut FrameStack<'a>,
) -> Result<(), AllocError>
    requires portal { portal < length flow.now.world.now.portals }
    requires own_portals { HasOwnPortals flow.now.world.now }
    requires same_world { S.world source.old ≡ flow.now.world.now }
    requires pairs { ArePairs flow.now.world.now sighted.old (pairs_of flow.now) }
    requires wide { length sighted.old ≡ length (numbered_leaves flow.now.world.now.tree) }
    requires none { stack.old.frames.items ≡ [] }
    requires spares { AreSparesWide flow.now.world.now stack.old }
    ensures begun { OnOk result (IsSearchVia flow.now.world.now (pairs_of flow.now) portal sighted.old stack.new.frames.items sighted.new) }
    ensures spares { OnOk result (AreSparesWide flow.now.world.now stack.new) }
    ensures on { S.goes_on source.old source.new }
{
    let leads = make_first(flow, source, portal, sighted, &mut stack.room)?;
    if !leads {
        return Ok(());
    }
    stack.push_next(flow.alloc, flow.world, portal)
}

/// Makes a frame that of the pair with a portal, with which a search begins; the leaf that the portal enters is sighted, where the
/// frame may show it. Where the step straight to the portal blocks, there is none, and nothing is wanted via the portal.
fn make_first<'a, S: RowSource>(
    flow: &Flow<'a>,
    source: &mut S,
    portal: u64,
    sighted: &mut BitRow,
    room: &mut Room<'a>,
) -> Result<bool, AllocError>
    requires portal { portal < length flow.now.world.now.portals }
    requires own_portals { HasOwnPortals flow.now.world.now }
    requires same_world { S.world source.old ≡ flow.now.world.now }
    requires pairs { ArePairs flow.now.world.now sighted.old (pairs_of flow.now) }
    requires wide { length sighted.old ≡ length (numbered_leaves flow.now.world.now.tree) }
    requires spares { AreWide flow.now.world.now room.old.next room.old.scratch.cone }
    ensures begun { IfOk result (λ leads. IsSearchVia flow.now.world.now (pairs_of flow.now) portal sighted.old (option_to_list (then_some leads room.new.next)) sighted.new) }
    ensures spares { OnOk result (AreWide flow.now.world.now room.new.next room.new.scratch.cone) }
    ensures on { S.goes_on source.old source.new }
{
    let next = &mut room.next;
    let start = flow.start.state();
    let pane = flow.world.pane(portal);
    let buffers = &mut room.scratch.steps;
    let leads = step_into(flow.alloc, buffers, &mut next.state, start, pane)?;
    if !leads {
        return Ok(false);
    }
    make_pair_frame(flow, source, portal, next);
    let entered = flow.world.to(portal);
    next.untried = flow.world.leaving(entered);
    find(sighted, &next.mask, entered);
    Ok(true)
}

/// Looks through portals, for a search: no row of a pair is made or narrowed.
#[derive(Drop)]
pub(crate) struct Looks<'f, 'a> {
    flow: &'f Flow<'a>,
}

impl<'f, 'a> Tries<'a> for Looks<'f, 'a> {
    ghost known = { λ looks. looks.flow.now };

    fn flow(&self) -> &Flow<'a> {
        self.flow
    }

    fn try_at<S: RowSource>(
        &mut self,
        source: &mut S,
        frame: &Frame<'a>,
        portal: u64,
        found: &mut BitRow,
        room: &mut Room<'a>,
    ) -> Result<bool, AllocError> {
        look_through(self.flow, source, frame, portal, found, room)
    }
}

/// Goes on until no frame is left, but for some rounds at the most: whether none is left.
fn end_soon<'f, 'a, S: RowSource>(
    looks: &mut Looks<'f, 'a>,
    source: &mut S,
    sighted: &mut BitRow,
    stack: &mut FrameStack<'a>,
) -> Result<bool, AllocError>
    requires own_portals { HasOwnPortals looks.old.flow.now.world.now }
    requires same_world { S.world source.old ≡ looks.old.flow.now.world.now }
    requires search { IsSomeSearch looks.old.flow.now.world.now (pairs_of looks.old.flow.now) stack.old.frames.items sighted.old }
    requires spares { AreSparesWide looks.old.flow.now.world.now stack.old }
    ensures ended { IfOk result (λ ended. ended ≡ true → (number : ℕ) (found : List Bool) →
        IsSearchVia looks.old.flow.now.world.now (pairs_of looks.old.flow.now) number found stack.old.frames.items sighted.old →
        IsSearchVia looks.old.flow.now.world.now (pairs_of looks.old.flow.now) number found [] sighted.new) }
    ensures wide { OnOk result (length sighted.new ≡ length sighted.old) }
    ensures on { S.goes_on source.old source.new }
{
    for _ in 0..ROUNDS {
        if stack.frames.is_empty() {
            break;
        }
        go_round(looks, source, sighted, stack)?;
    }
    Ok(stack.frames.is_empty())
}

/// Looks through a portal at a frame: whether the search goes on there and may still show a leaf that was not sighted, and then the
/// next frame is for it. No row is made or narrowed on the way.
fn look_through<'a, S: RowSource>(
    flow: &Flow<'a>,
    source: &mut S,
    frame: &Frame<'a>,
    portal: u64,
    sighted: &mut BitRow,
    room: &mut Room<'a>,
) -> Result<bool, AllocError>
    requires portal { portal < length flow.now.world.now.portals }
    requires own_portals { HasOwnPortals flow.now.world.now }
    requires of_world { AreOfWorld flow.now.world.now (S.world source.old) (pairs_of flow.now) frame.now sighted.old }
    requires spares { AreWide flow.now.world.now room.old.next room.old.scratch.cone }
    ensures tried { IfOk result (λ on. IsTry flow.now.world.now (S.ceilings source.old) (pairs_of flow.now) frame.now portal sighted.old sighted.new (then_some on room.new.next)) }
    ensures spares { OnOk result (AreWide flow.now.world.now room.new.next room.new.scratch.cone) }
    ensures stays { (n : ℕ) → IsIn sighted.old n → IsIn sighted.new n }
    ensures on { S.goes_on source.old source.new }
{
    let words = &mut room.scratch.words;
    let passes = passes_cheap_tests(flow, source, frame, portal, sighted, words)?;
    if !passes {
        return Ok(false);
    }
    go_through(flow, source, frame, portal, sighted, room)
}
