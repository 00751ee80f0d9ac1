//! One turn: a portal is flowed over a board, and its row is published.

ghost use Rattle.std.specs.Prelude.{ℕ, ◌≡◌, ◌<◌, length, IfOk, OnOk};
ghost use Rattle.qm_lists.specs.WorkList.{IsIn};
ghost use Rattle.qm_contacts.specs.NumberedLeaves.{numbered_leaves};
ghost use Rattle.qm_contacts.specs.Portals.{Portal};
ghost use Rattle.qm_segments.specs.Sight.{IsSoundRow};
ghost use Rattle.qm_chains.specs.Shown.{IsAt, IsShown};
ghost use Rattle.qm_sight.specs.InCeiling.{IsInCeiling};
ghost use Rattle.qm_board.specs.Ceilings.{ceiling_rows};
ghost use Rattle.qm_board.specs.PassOf.{findings_of};
ghost use Rattle.qm_crew.specs.inner.PassOver.{IsPassOver};
ghost use Rattle.qm_crew.specs.inner.TurnsTaken.{IsNarrower, HadTurn};

use crate::gate::Gate;
use crate::gated::GatedRows;
use crate::shared::SharedWorld;
use qm_bits::BitRow;
use qm_board::{BoardRows, Pass};
use qm_flow::flow;
use qm_lines::LineStore;
use std::alloc::{AllocError, Global};

/// Flows a portal over a board and publishes its row. After want of memory the pass is given back too.
pub(crate) fn take_turn<G: Gate>(
    alloc: Global,
    shared: &SharedWorld<'_>,
    gate: &G,
    pass: Pass,
    lines: &mut LineStore,
    portal: u64,
) -> (Pass, Result<(), AllocError>)
    requires pass { IsPassOver shared.now.world.now shared.now.board.now pass }
    requires portal_in_range { portal < length shared.now.world.now.portals }
    ensures pass { IsPassOver shared.now.world.now shared.now.board.now result.0 }
    ensures narrower { IsNarrower shared.now.world.now (findings_of pass) (findings_of result.0) }
    ensures turn { OnOk result.1 (HadTurn shared.now.world.now portal (findings_of pass) (findings_of result.0)) }
{
    let (mut pass, row) = flow_on(alloc, shared, gate, pass, lines, portal);
    match row {
        Ok(row) => {
            shared.board.publish(&mut pass, portal, &row);
            (pass, Ok(()))
        }
        Err(error) => (pass, Err(error)),
    }
}

/// The row of a portal, as it is flowed over a board, and the pass by which it was read.
fn flow_on<G: Gate>(
    alloc: Global,
    shared: &SharedWorld<'_>,
    gate: &G,
    pass: Pass,
    lines: &mut LineStore,
    portal: u64,
) -> (Pass, Result<BitRow, AllocError>)
    requires pass { IsPassOver shared.now.world.now shared.now.board.now pass }
    requires portal_in_range { portal < length shared.now.world.now.portals }
    ensures pass { IsPassOver shared.now.world.now shared.now.board.now result.0 }
    ensures narrower { IsNarrower shared.now.world.now (findings_of pass) (findings_of result.0) }
    ensures wide { IfOk result.1 (λ row. length row ≡ length (numbered_leaves shared.now.world.now.tree)) }
    ensures sound { IfOk result.1 (λ row. (first : Portal) → IsAt shared.now.world.now.portals portal first → IsSoundRow shared.now.world.now.tree first row) }
    ensures open_chains { IfOk result.1 (λ row. (n : ℕ) → IsIn row n → IsShown shared.now.world.now.portals (IsInCeiling (ceiling_rows shared.now.world.now (findings_of pass)) n) portal n) }
{
    let mut rows = GatedRows::over(BoardRows::over(shared.board, pass), gate, portal);
    let row = flow(alloc, shared.world, &mut rows, portal, lines);
    (rows.into_rows().into_pass(), row)
}
