//! One portal is tried at the end of a chain.

ghost use Rattle.std.specs.Prelude.{◌≡◌, ◌<◌, length, false, IfOk, OnOk};
ghost use Rattle.std.specs.Bool.{then_some};
ghost use Rattle.qm_contacts.specs.NumberedLeaves.{numbered_leaves};
ghost use Rattle.qm_contacts.specs.OwnPortals.{HasOwnPortals};
ghost use Rattle.qm_contacts.specs.Portals.{Portal};
ghost use Rattle.qm_chains.specs.Shown.{IsAt};
ghost use Rattle.qm_chains.specs.inner.Cone.{LeadsOn};
ghost use Rattle.qm_chains.specs.inner.Walk.{AreWide};
ghost use Rattle.qm_flow.specs.inner.FlowPairs.{pairs_of};
ghost use Rattle.qm_flow.specs.inner.FlowGoesOn.{FlowGoesOn};
ghost use Rattle.qm_flow.specs.inner.OfWorld.{AreOfWorld};
ghost use Rattle.qm_flow.specs.inner.Round.{IsTry};

use crate::cheap_tests::passes_cheap_tests;
use crate::flow_state::Flow;
use crate::frame::Frame;
use crate::masks::{list_new, may_show};
use crate::own_rows::Due;
use crate::pair_rows::pair;
use crate::room::Room;
use crate::searches::search;
use crate::step::go_through;
use qm_bits::BitRow;
use qm_sight::RowSource;
use std::alloc::AllocError;

/// Tries a portal at the end of a chain: whether the chain goes on and may still show a leaf that was not found, and then the
/// next frame is its own. The leaf that the portal enters is found, where the chain may show it.
pub(crate) fn try_portal<'a, S: RowSource>(
    flow: &mut Flow<'a>,
    source: &mut S,
    frame: &Frame<'a>,
    portal: u64,
    found: &mut BitRow,
    room: &mut Room<'a>,
) -> Result<bool, AllocError>
    requires portal { portal < length flow.old.world.now.portals }
    requires own_portals { HasOwnPortals flow.old.world.now }
    requires of_world { AreOfWorld flow.old.world.now (S.world source.old) (pairs_of flow.old) frame.now found.old }
    requires spares { AreWide flow.old.world.now room.old.next room.old.scratch.cone }
    ensures tried { IfOk result (λ on. IsTry flow.old.world.now (S.ceilings source.old) (pairs_of flow.old) frame.now portal found.old found.new (then_some on room.new.next)) }
    ensures spares { OnOk result (AreWide flow.old.world.now room.new.next room.new.scratch.cone) }
    ensures flow { OnOk result (FlowGoesOn (S.ceilings source.old) found.new flow.old flow.new) }
    ensures on { S.goes_on source.old source.new }
{
    let words = &mut room.scratch.words;
    let passes = passes_cheap_tests(flow, source, frame, portal, found, words)?;
    if !passes {
        return Ok(false);
    }
    let may = own_may_show(flow, source, frame, portal, found, room)?;
    if !may {
        return Ok(false);
    }
    go_through(flow, source, frame, portal, found, room)
}

/// Does what is due for the row of the pair with a portal; a frame is made in the next one for that: whether the row may then show
/// a leaf that was not found. Where nothing is due, it may.
fn own_may_show<'a, S: RowSource>(
    flow: &mut Flow<'a>,
    source: &mut S,
    frame: &Frame<'a>,
    portal: u64,
    found: &BitRow,
    room: &mut Room<'a>,
) -> Result<bool, AllocError>
    requires portal { portal < length flow.old.world.now.portals }
    requires own_portals { HasOwnPortals flow.old.world.now }
    requires of_world { AreOfWorld flow.old.world.now (S.world source.old) (pairs_of flow.old) frame.now found.now }
    requires spares { AreWide flow.old.world.now room.old.next room.old.scratch.cone }
    ensures none { IfOk result (λ may. may ≡ false → (q : Portal) → IsAt flow.old.world.now.portals portal q → LeadsOn flow.old.world.now flow.old.first frame.now found.now q → ⊥) }
    ensures spares { OnOk result (AreWide flow.old.world.now room.new.next room.new.scratch.cone) }
    ensures flow { OnOk result (FlowGoesOn (S.ceilings source.old) found.now flow.old flow.new) }
    ensures on { S.goes_on source.old source.new }
{
    let Some(due) = flow.own.note(portal) else {
        return Ok(true);
    };
    do_what_is_due(flow, source, portal, due, found, room)?;
    list_new(&frame.mask, found, &mut room.scratch.words)?;
    let words = &mut room.scratch.words;
    let own = &flow.own;
    let may = may_show(own, source, portal, &frame.mask, found, words);
    Ok(may)
}

/// Makes the row of the pair with a portal, or narrows it by a search.
fn do_what_is_due<'a, S: RowSource>(
    flow: &mut Flow<'a>,
    source: &mut S,
    portal: u64,
    due: Due,
    found: &BitRow,
    room: &mut Room<'a>,
) -> Result<(), AllocError>
    requires portal { portal < length flow.old.world.now.portals }
    requires own_portals { HasOwnPortals flow.old.world.now }
    requires of_world { AreOfWorld flow.old.world.now (S.world source.old) (pairs_of flow.old) room.old.next found.now }
    requires cone { length room.old.scratch.cone ≡ length (numbered_leaves flow.old.world.now.tree) }
    ensures flow { OnOk result (FlowGoesOn (S.ceilings source.old) found.now flow.old flow.new) }
    ensures spares { OnOk result (AreWide flow.old.world.now room.new.next room.new.scratch.cone) }
    ensures on { S.goes_on source.old source.new }
{
    match due {
        Due::Row => pair(flow, source, portal, found, room),
        Due::Search => search(flow, source, portal, found),
    }
}
