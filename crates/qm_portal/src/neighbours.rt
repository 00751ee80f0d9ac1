//! The neighbours of all leaves, found from the touching pairs.

ghost use Rattle.std.specs.Prelude.{◌≡◌, ◌<◌, ◌+◌, ◌^◌, length, slice_index_or, slice_set, false, IfOk};
ghost use Rattle.qm_partition.specs.Tree.{Tree};
ghost use Rattle.qm_partition.specs.Counting.{leaf_count};
ghost use Rattle.qm_contacts.specs.Meeting.{meetings};
ghost use Rattle.qm_contacts.specs.Touching.{AreTouchings};
ghost use Rattle.qm_contacts.specs.inner.Others.{AreOthersInRows};

use crate::links::{Rows, grouped, links_of, turned};
use crate::touching::Touching;
use std::alloc::{AllocError, Global};

/// The neighbours of each leaf, ascending. Links are grouped by the leaf from which they lead, turned leaf after leaf, and
/// grouped once more: then the links of each leaf come in the order of the leaves to which they lead.
pub(crate) fn neighbour_rows(
    alloc: Global,
    leaves: usize,
    pairs: &[Touching],
) -> Result<Rows, AllocError>
    requires pairs { (tree : Tree) × (leaf_count tree.shape ≡ leaves) × AreTouchings tree.planes (meetings tree) pairs.now }
    requires leaves { leaves + 1 < 2 ^ 64 }
    ensures { IfOk result (λ rows. AreOthersInRows pairs.now leaves rows.begins.items rows.all.items) }
{
    let links = links_of(alloc, pairs)?;
    let columns = grouped(alloc, leaves, &links)?;
    let turned = turned(alloc, leaves, &columns)?;
    let rows = grouped(alloc, leaves, &turned)?;
    Ok(rows)
}
