//! The leaves that portals enter, beside one another.

ghost use Rattle.std.specs.Prelude.{IfOk};
ghost use Rattle.qm_base.specs.inner.Entering.{AreEnteredLeaves};

use qm_portal::World;
use std::alloc::{AllocError, Global};

/// The numbers of the leaves that the portals enter, in their order. A sweep looks these up for each portal, and a portal
/// itself takes 300 bytes.
pub(crate) fn entered(alloc: Global, world: &World) -> Result<Vec<usize>, AllocError>
    ensures { IfOk result (λ entered. AreEnteredLeaves world.now entered.items) }
{
    let mut entered = Vec::new(alloc);
    for p in 0..world.portals() {
        entered.push(world.to(p) as usize)?;
    }
    Ok(entered)
}
