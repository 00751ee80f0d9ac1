//! Rows of a source, read leaf by leaf.

ghost use Rattle.std.specs.Prelude.{◌≡◌, ◌<◌, length, IsTrue, Some, slice_get};
ghost use Rattle.qm_contacts.specs.NumberedLeaves.{numbered_leaves};
ghost use Rattle.qm_contacts.specs.Portals.{Portal};
ghost use Rattle.qm_segments.specs.Sight.{IsInSight};
ghost use Rattle.qm_sight.specs.InCeiling.{IsInCeiling};

use crate::row_source::RowSource;

/// Whether the row of a portal has a leaf, as the source answers it: it has each leaf in sight of the portal, and only
/// such as are in its ceiling. Two answers for one leaf may differ. It takes no memory.
pub fn has_leaf<S: RowSource>(source: &mut S, portal: u64, leaf: u64) -> bool
    requires portal { portal < length (S.world source.old).portals }
    requires leaf { leaf < length (numbered_leaves (S.world source.old).tree) }
    ensures within { IsTrue result → IsInCeiling (S.ceilings source.old) leaf portal }
    ensures sound { (p : Portal) → slice_get (S.world source.old).portals portal ≡ Some p → IsInSight (S.world source.old).tree p leaf → IsTrue result }
    ensures on { S.goes_on source.old source.new }
{
    let word = source.word(portal, leaf / 64);
    (word >> (leaf % 64)) & 1 == 1
}
