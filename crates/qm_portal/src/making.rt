//! The world of a tree and its contacts.

ghost use Rattle.std.specs.Prelude.{◌≡◌, ◌<◌, All, length, IfOk};
ghost use Rattle.qm_contacts.specs.Contacts.{AreContacts};
ghost use Rattle.qm_contacts.specs.Portals.{portals_of};
ghost use Rattle.qm_contacts.specs.inner.WorldParts.{leaves_to};
ghost use Rattle.qm_portal.specs.inner.WorldExits.{AreExits};

use crate::exit::Exit;
use crate::leaving::Leaving;
use crate::numbers::Numbers;
use crate::passages::portals;
use crate::portal::Portal;
use crate::touch_list::TouchList;
use crate::worlds::World;
use qm_tree::Tree;
use std::alloc::{AllocError, Global};

/// The tree with the portals between its numbered leaves, by its contacts. Marking leaves as filled changes no contact, so
/// these may be found before.
pub fn world(alloc: Global, tree: &Tree, touches: &TouchList) -> Result<World, AllocError>
    requires { AreContacts tree.now touches.now }
    ensures { IfOk result (λ world. world ≡ record { tree = tree.now; portals = portals_of tree.now touches.now.touchings }) }
{
    let numbers = Numbers::of(alloc, tree.all_leaves())?;
    let portals = portals(alloc, tree, &numbers.before, touches.touchings())?;
    let leaving = Leaving::of(alloc, &portals, numbers.numbered.len())?;
    let entered = entered_leaves(alloc, &portals)?;
    let exits = exits_at(alloc, &portals, &leaving.places)?;
    let tree = tree.copy(alloc)?;
    Ok(World::of(tree, numbers, portals, entered, leaving, exits))
}

/// The leaf that each portal enters.
fn entered_leaves(alloc: Global, portals: &[Portal]) -> Result<Vec<u64>, AllocError>
    ensures { IfOk result (λ entered. entered.items ≡ leaves_to portals.now) }
{
    let mut entered = Vec::with_capacity(alloc, portals.len())?;
    for portal in portals {
        entered.push(portal.to)?;
    }
    Ok(entered)
}

/// The portals at some places as exits, in the order of the places.
fn exits_at(alloc: Global, portals: &[Portal], places: &[u64]) -> Result<Vec<Exit>, AllocError>
    requires { All (λ place. place < length portals.now) places.now }
    ensures { IfOk result (λ exits. AreExits portals.now places.now exits.items) }
{
    let mut exits = Vec::with_capacity(alloc, places.len())?;
    for place in places {
        exits.push(Exit::of(portals, *place))?;
    }
    Ok(exits)
}
