ghost use Rattle.std.specs.Prelude.{◌≡◌, ◌<◌, ℕ, length, IfOk, ◌↔◌};
ghost use Rattle.qm_lists.specs.WorkList.{IsIn};
ghost use Rattle.qm_lists.specs.inner.Steps.{steps_of};
ghost use Rattle.qm_flood.specs.inner.Filling.{HasThoseWithSteps};

use qm_bits::BitRow;
use std::alloc::{AllocError, Global};

/// The row of the leaves that have steps.
pub(crate) fn filled_row(alloc: Global, steps: &[u64]) -> Result<BitRow, AllocError>
    ensures { IfOk result (λ row. HasThoseWithSteps steps.now row) }
{
    let mut row = BitRow::with_len(alloc, steps.len() as u64)?;
    for leaf in 0..steps.len() {
        if steps[leaf] > 0 {
            row.set(leaf as u64);
        }
    }
    Ok(row)
}
