//! The cone of a frame: the leaves that its chain may still come to.

ghost use Rattle.std.specs.Prelude.{ℕ, ◌≡◌, ◌<◌, [], ◌∷◌, length, All, map, IfOk, OnOk};
ghost use Rattle.std.specs.Bool.{then_some};
ghost use Rattle.qm_lists.specs.WorkList.{IsIn};
ghost use Rattle.qm_contacts.specs.NumberedLeaves.{numbered_leaves};
ghost use Rattle.qm_portal.specs.Exits.{IsExitOf};
ghost use Rattle.qm_chains.specs.inner.Cone.{LeadsInto, IsInCone, IsLeftOf, AreEntered, AreLeft};
ghost use Rattle.qm_chains.specs.inner.Walk.{AreWide};
ghost use Rattle.qm_flow.specs.inner.FlowPairs.{pairs_of};
ghost use Rattle.qm_flow.specs.inner.CutFrame.{IsCutFrame};
ghost use Rattle.qm_flow.specs.inner.NewWords.{HaveAllNew};
ghost use Rattle.qm_flow.specs.inner.OfWorld.{AreOfWorld};

use crate::cheap_tests::exit_may_lead_on;
use crate::flow_state::Flow;
use crate::frame::Frame;
use crate::masks::{copy_row, list_new, take_one, take_out};
use crate::room::Scratch;
use qm_bits::BitRow;
use qm_portal::Exit;
use qm_sight::RowSource;
use std::alloc::AllocError;

/// Narrows the mask of a frame that has entered a leaf by its cone: whether the mask then still has a leaf that was not found.
pub(crate) fn left_of<'a, S: RowSource>(
    flow: &Flow<'a>,
    source: &mut S,
    frame: &mut Frame<'a>,
    found: &BitRow,
    entered: u64,
    scratch: &mut Scratch,
) -> Result<bool, AllocError>
    requires entered { entered < length (numbered_leaves flow.now.world.now.tree) }
    requires of_world { AreOfWorld flow.now.world.now (S.world source.old) (pairs_of flow.now) frame.old found.now }
    requires cone { length scratch.old.cone ≡ length (numbered_leaves flow.now.world.now.tree) }
    ensures left { IfOk result (λ left. IsLeftOf flow.now.world.now flow.now.first frame.old found.now entered (then_some left frame.new)) }
    ensures wide { OnOk result (AreWide flow.now.world.now frame.new scratch.new.cone) }
    ensures on { S.goes_on source.old source.new }
{
    cone_of(flow, source, frame, found, entered, scratch)?;
    Ok(cut_frame(frame, &scratch.cone, found))
}

/// Takes leaves that a row does not have from the mask of a frame: whether the mask has something then that was not found.
fn cut_frame<'a>(frame: &mut Frame<'a>, cone: &BitRow, found: &BitRow) -> bool
    requires cone { length cone.now ≡ length frame.old.mask }
    requires found { length found.now ≡ length frame.old.mask }
    ensures left { IsCutFrame cone.now found.now frame.old (then_some result frame.new) }
    ensures met { frame.new.met ≡ frame.old.met }
    ensures wide { length frame.new.mask ≡ length frame.old.mask }
{
    frame.mask.and_row(cone);
    frame.mask.has_new(found)
}

/// Makes the row for cones have that of a frame that has entered a leaf.
pub(crate) fn cone_of<'a, S: RowSource>(
    flow: &Flow<'a>,
    source: &mut S,
    frame: &Frame<'a>,
    found: &BitRow,
    entered: u64,
    scratch: &mut Scratch,
) -> Result<(), AllocError>
    requires entered { entered < length (numbered_leaves flow.now.world.now.tree) }
    requires of_world { AreOfWorld flow.now.world.now (S.world source.old) (pairs_of flow.now) frame.now found.now }
    requires cone { length scratch.old.cone ≡ length (numbered_leaves flow.now.world.now.tree) }
    ensures wide { OnOk result (length scratch.new.cone ≡ length (numbered_leaves flow.now.world.now.tree)) }
    ensures cone { OnOk result ((n : ℕ) → IsInCone flow.now.world.now flow.now.first frame.now found.now entered n → IsIn scratch.new.cone n) }
    ensures on { S.goes_on source.old source.new }
{
    scratch.cone.clear();
    scratch.cone.set(entered);
    copy_row(flow.alloc, &mut scratch.left, &frame.mask)?;
    take_out(&mut scratch.left, &frame.met);
    take_one(&mut scratch.left, entered);
    scratch.due.clear();
    scratch.due.push(entered)?;
    list_new(&frame.mask, found, &mut scratch.words)?;
    while let Some(leaf) = scratch.due.pop() {
        let exits = flow.world.exits(leaf);
        go_on(flow, source, frame, found, exits, scratch)?;
    }
    Ok(())
}

/// Enters the leaves into which exits of a leaf may lead on.
fn go_on<'a, S: RowSource>(
    flow: &Flow<'a>,
    source: &mut S,
    frame: &Frame<'a>,
    found: &BitRow,
    exits: &[Exit],
    scratch: &mut Scratch,
) -> Result<(), AllocError>
    requires exits { All (IsExitOf flow.now.world.now.portals) exits.now }
    requires within { All (λ exit. exit.to < length (numbered_leaves flow.now.world.now.tree)) exits.now }
    requires of_world { AreOfWorld flow.now.world.now (S.world source.old) (pairs_of flow.now) frame.now found.now }
    requires cone { length scratch.old.cone ≡ length (numbered_leaves flow.now.world.now.tree) }
    requires left { AreLeft frame.now scratch.old.cone scratch.old.left }
    requires words { HaveAllNew frame.now.mask found.now scratch.old.words.items }
    ensures left { OnOk result (AreLeft frame.now scratch.new.cone scratch.new.left) }
    ensures entered { OnOk result (AreEntered (LeadsInto flow.now.world.now flow.now.first frame.now found.now (map (λ exit. exit.portal) exits.now)) scratch.old.cone scratch.new.cone scratch.old.due.items scratch.new.due.items) }
    ensures words { OnOk result (HaveAllNew frame.now.mask found.now scratch.new.words.items) }
    ensures on { S.goes_on source.old source.new }
{
    for exit in exits {
        enter(flow, source, frame, found, exit, scratch)?;
    }
    Ok(())
}

/// Enters the leaf that an exit enters, where it is left to enter and the exit may lead on.
fn enter<'a, S: RowSource>(
    flow: &Flow<'a>,
    source: &mut S,
    frame: &Frame<'a>,
    found: &BitRow,
    exit: &Exit,
    scratch: &mut Scratch,
) -> Result<(), AllocError>
    requires exit { IsExitOf flow.now.world.now.portals exit.now }
    requires within { exit.now.to < length (numbered_leaves flow.now.world.now.tree) }
    requires of_world { AreOfWorld flow.now.world.now (S.world source.old) (pairs_of flow.now) frame.now found.now }
    requires cone { length scratch.old.cone ≡ length (numbered_leaves flow.now.world.now.tree) }
    requires left { AreLeft frame.now scratch.old.cone scratch.old.left }
    requires words { HaveAllNew frame.now.mask found.now scratch.old.words.items }
    ensures left { OnOk result (AreLeft frame.now scratch.new.cone scratch.new.left) }
    ensures entered { OnOk result (AreEntered (LeadsInto flow.now.world.now flow.now.first frame.now found.now (exit.now.portal ∷ [])) scratch.old.cone scratch.new.cone scratch.old.due.items scratch.new.due.items) }
    ensures words { OnOk result (HaveAllNew frame.now.mask found.now scratch.new.words.items) }
    ensures on { S.goes_on source.old source.new }
{
    if !scratch.left.get(exit.to) {
        return Ok(());
    }
    let words = &mut scratch.words;
    if !exit_may_lead_on(flow, source, frame, exit, found, words) {
        return Ok(());
    }
    scratch.cone.set(exit.to);
    take_one(&mut scratch.left, exit.to);
    scratch.due.push(exit.to)?;
    Ok(())
}
