ghost use Rattle.std.specs.Prelude.{IfSome, IfNone, Contains};
ghost use Rattle.qm_contacts.specs.Leak.{Origin as OriginRecord, AreInOrder, Leaks, IsFirstLeak};
ghost use Rattle.qm_flood.specs.inner.Spreading.{AreLeafSteps};

use crate::origin::Origin;
use qm_tree::Tree;

/// The first entity that leaks: the outside reaches the leaf in which it stands.
pub(crate) fn first_leak<'a>(
    steps: &[u64],
    tree: &Tree,
    origins: &'a [Origin],
) -> Option<&'a Origin>
    requires steps { AreLeafSteps tree.now steps.now }
    requires in_order { AreInOrder origins.now }
    ensures some { IfSome result (λ origin. IsFirstLeak tree.now origins.now origin.now) }
    ensures none { IfNone result ((origin : OriginRecord) → Contains origins.now origin → Leaks tree.now origin → ⊥) }
{
    for origin in origins {
        if steps[tree.leaf_at(&origin.point) as usize] > 0 {
            return Some(origin);
        }
    }
    None
}
