ghost use Rattle.std.specs.Prelude.{IfOk, IsTrue, ◌↔◌};
ghost use Rattle.std.specs.List.{Any};
ghost use Rattle.qm_contacts.specs.Contacts.{AreContacts};
ghost use Rattle.qm_contacts.specs.Leak.{TakesPart, AreInOrder};
ghost use Rattle.qm_flood.specs.Found.{IsFloodOf};

use crate::answer::Flood;
use crate::filling::filled_row;
use crate::leaking::first_leak;
use crate::origin::Origin;
use crate::passable::is_solid;
use crate::spreading::steps_from_outside;
use crate::trail::trail_of;
use qm_portal::TouchList;
use qm_tree::Tree;
use std::alloc::{AllocError, Global};

/// What the outside makes of a tree whose contacts these are, and of the entities that stand at these points.
pub fn flood(
    alloc: Global,
    touches: &TouchList,
    tree: &Tree,
    origins: &[Origin],
) -> Result<Flood, AllocError>
    requires contacts { AreContacts tree.now touches.now }
    requires in_order { AreInOrder origins.now }
    ensures { IfOk result (λ flood. IsFloodOf tree.now origins.now flood) }
{
    if !any_takes_part(tree, origins) {
        return Ok(Flood::NoEntity);
    }
    let steps = steps_from_outside(alloc, touches, tree)?;
    match first_leak(&steps, tree, origins) {
        None => Ok(Flood::Sealed(filled_row(alloc, &steps)?)),
        Some(origin) => Ok(Flood::Leak {
            entity: origin.entity,
            trail: trail_of(alloc, touches, &steps, tree.leaf_at(&origin.point))?,
        }),
    }
}

/// Whether some entity does not stand in solid.
fn any_takes_part(tree: &Tree, origins: &[Origin]) -> bool
    ensures { IsTrue result ↔ Any (λ origin. TakesPart tree.now origin) origins.now }
{
    origins.iter().any(|origin| takes_part(tree, origin))
}

/// Whether an entity does not stand in solid.
fn takes_part(tree: &Tree, origin: &Origin) -> bool
    ensures { IsTrue result ↔ TakesPart tree.now origin.now }
{
    !is_solid(tree.leaf(tree.leaf_at(&origin.point)).contents)
}
