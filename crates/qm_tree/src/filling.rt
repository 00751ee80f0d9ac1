//! Marking leaves as filled.

ghost use Rattle.std.specs.Prelude.{◌≡◌, length};
ghost use Rattle.qm_tree.specs.inner.MarkedBelow.{AreMarkedBelow};

use qm_bits::BitRow;
use qm_contents::Contents;
use qm_partition::Leaf;

/// Marks the leaves of a row as filled. All others stay.
pub(crate) fn mark_filled(leaves: &mut [Leaf], filled: &BitRow)
    requires { length filled.now ≡ length leaves.old }
    ensures { AreMarkedBelow (length leaves.old) filled.now leaves.old leaves.new }
{
    for k in 0..leaves.len() {
        if filled.get(k as u64) {
            leaves[k] = Leaf {
                contents: Contents::Solid,
                filled: true,
            };
        }
    }
}
