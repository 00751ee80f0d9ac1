//! Where lines left leaves last. No promise rests on it.

ghost use Rattle.std.specs.Prelude.{◌≡◌, IfSome};
ghost use Rattle.qm_contacts.specs.Portals.{Portal};
ghost use Rattle.qm_chains.specs.Shown.{IsAt};

use qm_portal::World;
use std::alloc::{AllocError, Global};

/// For each leaf the portal by which a line left it last, where one did.
#[derive(Drop)]
pub(crate) struct Exits {
    of_leaves: Vec<u64>,
}

/// More than any portal's number.
const NONE: u64 = 18_446_744_073_709_551_615;

impl Exits {
    /// Those of no leaf.
    pub(crate) fn new(alloc: Global) -> Exits {
        Exits {
            of_leaves: Vec::new(alloc),
        }
    }

    /// Makes room for so many leaves.
    pub(crate) fn make_room(&mut self, leaves: u64) -> Result<(), AllocError> {
        self.of_leaves.resize(leaves as usize, NONE)
    }

    /// The portal by which a line left a leaf of a world last, if it leaves the leaf.
    pub(crate) fn of_leaf(&self, world: &World, leaf: u64) -> Option<u64>
        ensures { IfSome result (λ portal. (q : Portal) × IsAt world.now.portals portal q × (q.from ≡ leaf)) }
    {
        match self.of_leaves.get(leaf as usize) {
            None => None,
            Some(portal) => if_leaving(world, *portal, leaf),
        }
    }

    /// Notes by which portal a line left a leaf.
    pub(crate) fn note(&mut self, leaf: u64, portal: u64) {
        if let Some(exit) = self.of_leaves.get_mut(leaf as usize) {
            *exit = portal;
        }
    }
}

/// A portal, if it is one of a world and leaves a leaf.
fn if_leaving(world: &World, portal: u64, leaf: u64) -> Option<u64>
    ensures { IfSome result (λ portal. (q : Portal) × IsAt world.now.portals portal q × (q.from ≡ leaf)) }
{
    if portal >= world.portals() {
        return None;
    }
    if world.from(portal) != leaf {
        return None;
    }
    Some(portal)
}
