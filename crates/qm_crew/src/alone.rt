//! One worker alone.

ghost use Rattle.std.specs.Prelude.{◌≡◌, [], length, IfOk};
ghost use Rattle.std.specs.List.{range_with_len};
ghost use Rattle.qm_board.specs.PassOf.{findings_of};
ghost use Rattle.qm_crew.specs.inner.PassOver.{IsPassOver};
ghost use Rattle.qm_crew.specs.inner.TurnsTaken.{LieAlong};

use crate::settling::{Settling, append_turn};
use crate::shared::SharedWorld;
use qm_board::Pass;
use qm_lines::LineStore;
use std::alloc::{AllocError, Global};

/// Takes the turn of each portal, in order. Nothing is drawn.
pub(crate) fn work_alone(
    alloc: Global,
    shared: &SharedWorld<'_>,
    pass: Pass,
) -> Result<Settling, AllocError>
    requires pass { IsPassOver shared.now.world.now shared.now.board.now pass }
    requires along { LieAlong shared.now.world.now (findings_of pass) [] }
    ensures pass { IfOk result (λ ended. IsPassOver shared.now.world.now shared.now.board.now ended.pass) }
    ensures first { IfOk result (λ ended. ended.first.items ≡ range_with_len 0 (length shared.now.world.now.portals)) }
    ensures along { IfOk result (λ ended. LieAlong shared.now.world.now (findings_of ended.pass) ended.first.items) }
{
    let mut settling = Settling {
        pass,
        first: Vec::new(alloc),
        lines: LineStore::new(alloc),
    };
    for portal in 0..shared.world.portals() {
        settling = append_turn(alloc, shared, settling, portal)?;
    }
    Ok(settling)
}
