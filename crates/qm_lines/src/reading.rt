//! What is asked of a source of rows.

ghost use Rattle.std.specs.Prelude.{ℕ, ◌≡◌, ◌<◌, true, length, All, IsTrue};
ghost use Rattle.qm_lists.specs.WorkList.{IsIn};
ghost use Rattle.qm_contacts.specs.NumberedLeaves.{numbered_leaves};
ghost use Rattle.qm_sight.specs.InCeiling.{IsInCeiling};

use qm_sight::{RowSource, has_leaf};

/// Whether the rows of some portals all have a leaf.
pub(crate) fn all_have_leaf<S: RowSource>(source: &mut S, portals: &[u64], leaf: u64) -> bool
    requires portals { All (λ p. p < length (S.world source.old).portals) portals.now }
    requires leaf { leaf < length (numbered_leaves (S.world source.old).tree) }
    ensures ceilings { IsTrue result → All (IsInCeiling (S.ceilings source.old) leaf) portals.now }
    ensures on { S.goes_on source.old source.new }
{
    for portal in portals {
        if !has_leaf(source, *portal, leaf) {
            return false;
        }
    }
    true
}
