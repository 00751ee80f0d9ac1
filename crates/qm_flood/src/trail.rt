//! The trail: from a leaf, each time to the nearest of the leaves that it touches, until the outside is touched.

ghost use Rattle.std.specs.Prelude.{◌≡◌, ◌<◌, length, IfOk, IfSome, IfNone};
ghost use Rattle.qm_lists.specs.inner.Steps.{steps_of};
ghost use Rattle.qm_partition.specs.Tree.{Tree};
ghost use Rattle.qm_contacts.specs.Leak.{IsTrail};
ghost use Rattle.qm_contacts.specs.inner.Descends.{IsNextOfTrail};
ghost use Rattle.qm_flood.specs.inner.Stepping.{AreStepsOver};

use qm_lists::Items;
use qm_portal::TouchList;
use std::alloc::{AllocError, Global};

/// The trail of a leaf that the outside reaches.
pub(crate) fn trail_of(
    alloc: Global,
    touches: &TouchList,
    steps: &[u64],
    leaf: u64,
) -> Result<Items<u64>, AllocError>
    requires steps { (tree : Tree) × AreStepsOver tree touches.now steps.now }
    requires reached { 0 < steps_of steps.now leaf }
    ensures { (tree : Tree) → AreStepsOver tree touches.now steps.now → IfOk result (λ trail. IsTrail tree leaf trail) }
{
    let mut trail = Vec::new(alloc);
    trail.push(leaf)?;
    let mut last = leaf;
    while let Some(next) = nearest(touches, steps, last) {
        trail.push(next)?;
        last = next;
    }
    Ok(Items::from_vec(trail))
}

/// Of the leaves that a leaf touches, the least of those that have one step less. `None` exactly where it has one step.
fn nearest(touches: &TouchList, steps: &[u64], leaf: u64) -> Option<u64>
    requires steps { (tree : Tree) × AreStepsOver tree touches.now steps.now }
    requires reached { 0 < steps_of steps.now leaf }
    ensures some { (tree : Tree) → AreStepsOver tree touches.now steps.now → IfSome result (λ next. IsNextOfTrail tree steps.now leaf next) }
    ensures none { IfNone result (steps_of steps.now leaf ≡ 1) }
{
    let wanted = steps_at(steps, leaf) - 1;
    if wanted == 0 {
        return None;
    }
    for other in touches.neighbours(leaf) {
        if steps_at(steps, *other) == wanted {
            return Some(*other);
        }
    }
    None
}

fn steps_at(steps: &[u64], leaf: u64) -> u64
    requires { leaf < length steps.now }
    ensures { result ≡ steps_of steps.now leaf }
{
    steps[leaf as usize]
}
