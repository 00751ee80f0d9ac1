//! Whether a portal may lead on at the end of a chain.

ghost use Rattle.std.specs.Prelude.{◌≡◌, ◌<◌, true, false, length, IfOk};
ghost use Rattle.qm_lists.specs.WorkList.{IsIn};
ghost use Rattle.qm_contacts.specs.Portals.{Portal};
ghost use Rattle.qm_portal.specs.Exits.{IsExitOf};
ghost use Rattle.qm_chains.specs.Shown.{IsAt};
ghost use Rattle.qm_chains.specs.inner.Cone.{LeadsOn};
ghost use Rattle.qm_flow.specs.inner.FlowPairs.{pairs_of};
ghost use Rattle.qm_flow.specs.inner.NewWords.{HaveAllNew};
ghost use Rattle.qm_flow.specs.inner.OfWorld.{AreOfWorld};

use crate::flow_state::Flow;
use crate::frame::Frame;
use crate::masks::{list_new, may_show};
use qm_bits::BitRow;
use qm_narrow::{may_pass, may_pass_measured};
use qm_portal::Exit;
use qm_sight::RowSource;
use std::alloc::AllocError;

/// Whether a portal passes the cheap tests of a try at a frame: the chain may enter its leaf, and it may lead on.
pub(crate) fn passes_cheap_tests<'a, S: RowSource>(
    flow: &Flow<'a>,
    source: &mut S,
    frame: &Frame<'a>,
    portal: u64,
    found: &BitRow,
    words: &mut Vec<u64>,
) -> Result<bool, AllocError>
    requires portal { portal < length flow.now.world.now.portals }
    requires of_world { AreOfWorld flow.now.world.now (S.world source.old) (pairs_of flow.now) frame.now found.now }
    ensures new { IfOk result (λ may. may ≡ true → (q : Portal) → IsAt flow.now.world.now.portals portal q → IsIn frame.now.met q.to → ⊥) }
    ensures none { IfOk result (λ may. may ≡ false → (q : Portal) → IsAt flow.now.world.now.portals portal q → LeadsOn flow.now.world.now flow.now.first frame.now found.now q → ⊥) }
    ensures on { S.goes_on source.old source.new }
{
    if !frame.may_enter(flow.world.to(portal)) {
        return Ok(false);
    }
    list_new(&frame.mask, found, words)?;
    let may = may_lead_on(flow, source, frame, portal, found, words);
    Ok(may)
}

/// Whether a portal into a leaf that the chain may enter may lead on: it may show a leaf of the mask that was not found, and the
/// state lets it pass.
fn may_lead_on<'a, S: RowSource>(
    flow: &Flow<'a>,
    source: &mut S,
    frame: &Frame<'a>,
    portal: u64,
    found: &BitRow,
    words: &mut [u64],
) -> bool
    requires portal { portal < length flow.now.world.now.portals }
    requires of_world { AreOfWorld flow.now.world.now (S.world source.old) (pairs_of flow.now) frame.now found.now }
    requires words { HaveAllNew frame.now.mask found.now words.old }
    ensures none { result ≡ false → (q : Portal) → IsAt flow.now.world.now.portals portal q → LeadsOn flow.now.world.now flow.now.first frame.now found.now q → ⊥ }
    ensures on { S.goes_on source.old source.new }
{
    if !may_show_more(flow, source, frame, portal, found, words) {
        return false;
    }
    may_pass(&frame.state, flow.world.pane(portal))
}

/// The same of an exit of a leaf, by its extent.
pub(crate) fn exit_may_lead_on<'a, S: RowSource>(
    flow: &Flow<'a>,
    source: &mut S,
    frame: &Frame<'a>,
    exit: &Exit,
    found: &BitRow,
    words: &mut [u64],
) -> bool
    requires exit { IsExitOf flow.now.world.now.portals exit.now }
    requires of_world { AreOfWorld flow.now.world.now (S.world source.old) (pairs_of flow.now) frame.now found.now }
    requires words { HaveAllNew frame.now.mask found.now words.old }
    ensures none { result ≡ false → (q : Portal) → IsAt flow.now.world.now.portals exit.now.portal q → LeadsOn flow.now.world.now flow.now.first frame.now found.now q → ⊥ }
    ensures words { HaveAllNew frame.now.mask found.now words.new }
    ensures on { S.goes_on source.old source.new }
{
    if !may_show_more(flow, source, frame, exit.portal, found, words) {
        return false;
    }
    may_pass_measured(&frame.state, &flow.world.measured_pane(exit))
}

/// Whether a portal may show a leaf of the mask of a frame that was not found.
fn may_show_more<'a, S: RowSource>(
    flow: &Flow<'a>,
    source: &mut S,
    frame: &Frame<'a>,
    portal: u64,
    found: &BitRow,
    words: &mut [u64],
) -> bool
    requires portal { portal < length flow.now.world.now.portals }
    requires of_world { AreOfWorld flow.now.world.now (S.world source.old) (pairs_of flow.now) frame.now found.now }
    requires words { HaveAllNew frame.now.mask found.now words.old }
    ensures none { result ≡ false → (q : Portal) → IsAt flow.now.world.now.portals portal q → LeadsOn flow.now.world.now flow.now.first frame.now found.now q → ⊥ }
    ensures words { HaveAllNew frame.now.mask found.now words.new }
    ensures on { S.goes_on source.old source.new }
{
    may_show(&flow.own, source, portal, &frame.mask, found, words)
}
