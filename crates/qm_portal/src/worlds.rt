ghost use Rattle.std.specs.Prelude.{◌≡◌, ◌<◌, length, Contains, Some, All, map, slice_get, MatchOption};
ghost use Rattle.qm_partition.specs.Counting.{leaf_count};
ghost use Rattle.qm_contacts.specs.NumberedLeaves.{numbered_leaves};
ghost use Rattle.qm_contacts.specs.Portals.{Portal as PortalRecord};
ghost use Rattle.qm_contacts.specs.World.{AreLeaving, LeadsBack};
ghost use Rattle.qm_contacts.specs.OwnPortals.{HasOwnPortals};
ghost use Rattle.qm_contacts.specs.inner.WorldParts.{AreWorldParts};
ghost use Rattle.qm_portal.specs.Exits.{IsExitOf};
ghost use Rattle.qm_portal.specs.inner.WorldExits.{AreExits};

use crate::exit::Exit;
use crate::leaving::Leaving;
use crate::numbers::{Numbers, is_numbered};
use crate::portal::Portal;
use qm_extents::MeasuredPane;
use qm_tree::Tree;
use qm_wind::Pane;
use std::marker::Model;

/// A tree each of whose leaves has a point, with the portals between its numbered leaves.
#[derive(Drop)]
pub struct World {
    tree: Tree,
    numbers: Numbers,
    portals: Vec<Portal>,
    /// The leaf that each portal enters, in a list of its own: a portal is large, and flows ask for this leaf most.
    entered: Vec<u64>,
    leaving: Leaving,
    /// The portals at the places of `leaving`: the few numbers of each that floods ask for lie side by side.
    exits: Vec<Exit>,
}

impl Model for World {
    ghost use Rattle.std.specs.Coded.{codes};
    ghost use Rattle.qm_partition.specs.inner.TreeCode.{tree_code};
    ghost use Rattle.qm_contacts.specs.World.{World};
    ghost use Rattle.qm_contacts.specs.inner.WorldParts.{AreWorldParts};
    ghost use Rattle.qm_portal.specs.inner.WorldExits.{AreExits};

    ghost Value = { World };

    ghost coded = { Prim.hlevel (codes, tree_code) };

    ghost view = { λ world. record { tree = world.tree; portals = world.portals.items } };

    ghost invariant = { λ world. AreWorldParts world.tree world.portals.items world.entered.items world.numbers.numbered.items world.numbers.before.items world.leaving.begins.items world.leaving.places.items × AreExits world.portals.items world.leaving.places.items world.exits.items };
}

impl World {
    /// The world of its parts.
    pub(crate) fn of(
        tree: Tree,
        numbers: Numbers,
        portals: Vec<Portal>,
        entered: Vec<u64>,
        leaving: Leaving,
        exits: Vec<Exit>,
    ) -> World
        requires parts { AreWorldParts tree portals.items entered.items numbers.numbered.items numbers.before.items leaving.begins.items leaving.places.items }
        requires exits { AreExits portals.items leaving.places.items exits.items }
        ensures { result ≡ record { tree = tree; portals = portals.items } }
    {
        World {
            tree,
            numbers,
            portals,
            entered,
            leaving,
            exits,
        }
    }

    /// Each leaf of the tree has a point, and the portals are exactly those between its touching leaves. This does nothing: its
    /// clause is what a world is by itself.
    pub fn own_portals(&self)
        ensures { HasOwnPortals self.now }
    {
        let _ = &self.tree;
    }

    /// The tree.
    pub fn tree(&self) -> &Tree
        ensures { result.now ≡ self.now.tree }
    {
        &self.tree
    }

    /// How many leaves are numbered.
    pub fn leaves(&self) -> u64
        ensures { result ≡ length (numbered_leaves self.now.tree) }
    {
        self.numbers.numbered.len() as u64
    }

    /// The leaf of the tree that has a number.
    pub fn tree_leaf(&self, n: u64) -> u64
        requires { n < length (numbered_leaves self.now.tree) }
        ensures value { slice_get (numbered_leaves self.now.tree) n ≡ Some result }
        ensures within { result < leaf_count self.now.tree.shape }
    {
        self.numbers.numbered[n as usize]
    }

    /// The number of a leaf of the tree. `None` exactly where it is not numbered.
    pub fn number(&self, leaf: u64) -> Option<u64>
        requires { leaf < leaf_count self.now.tree.shape }
        ensures { MatchOption result (Contains (numbered_leaves self.now.tree) leaf → ⊥) (λ n. slice_get (numbered_leaves self.now.tree) n ≡ Some leaf) }
    {
        if is_numbered(&self.tree.leaf(leaf)) {
            Some(self.numbers.before[leaf as usize])
        } else {
            None
        }
    }

    /// How many portals there are; each passage has two, one each way.
    pub fn portals(&self) -> u64
        ensures { result ≡ length self.now.portals }
    {
        self.portals.len() as u64
    }

    /// The pane of a portal: its polygon, and the polygon's plane turned to the leaf that one enters.
    pub fn pane(&self, p: u64) -> &Pane
        requires { p < length self.now.portals }
        ensures { (portal : PortalRecord) × (slice_get self.now.portals p ≡ Some portal) × (result.now.winding ≡ portal.winding) × (result.now.into ≡ portal.into) }
    {
        let portal = &self.portals[p as usize];
        &portal.pane
    }

    /// The number of the leaf that a portal leaves.
    pub fn from(&self, p: u64) -> u64
        requires { p < length self.now.portals }
        ensures value { (portal : PortalRecord) × (slice_get self.now.portals p ≡ Some portal) × (result ≡ portal.from) }
        ensures within { result < length (numbered_leaves self.now.tree) }
    {
        let portal = &self.portals[p as usize];
        portal.from
    }

    /// The number of the leaf that a portal enters.
    pub fn to(&self, p: u64) -> u64
        requires { p < length self.now.portals }
        ensures value { (portal : PortalRecord) × (slice_get self.now.portals p ≡ Some portal) × (result ≡ portal.to) }
        ensures within { result < length (numbered_leaves self.now.tree) }
    {
        self.entered[p as usize]
    }

    /// The portal that leads back through a portal.
    pub fn back(&self, p: u64) -> u64
        requires { p < length self.now.portals }
        ensures back { LeadsBack self.now.portals p result }
        ensures within { result < length self.now.portals }
    {
        let _ = &self.portals;
        // the two ways through a passage stand together
        if p % 2 == 0 { p + 1 } else { p - 1 }
    }

    /// The portals that leave the leaf of a number, ascending.
    pub fn leaving(&self, n: u64) -> &[u64]
        requires { n < length (numbered_leaves self.now.tree) }
        ensures { AreLeaving self.now.portals n result.now }
    {
        let first = self.leaving.begins[n as usize] as usize;
        let end = self.leaving.begins[n as usize + 1] as usize;
        &self.leaving.places[first..end]
    }

    /// The portals that leave the leaf of a number, ascending, as exits.
    pub fn exits(&self, n: u64) -> &[Exit]
        requires { n < length (numbered_leaves self.now.tree) }
        ensures leaving { AreLeaving self.now.portals n (map (λ exit. exit.portal) result.now) }
        ensures each { All (IsExitOf self.now.portals) result.now }
        ensures within { All (λ exit. exit.to < length (numbered_leaves self.now.tree)) result.now }
    {
        let first = self.leaving.begins[n as usize] as usize;
        let end = self.leaving.begins[n as usize + 1] as usize;
        &self.exits[first..end]
    }

    /// The pane of an exit's portal, with its extent.
    pub fn measured_pane<'a>(&'a self, exit: &'a Exit) -> MeasuredPane<'a>
        requires { IsExitOf self.now.portals exit.now }
        ensures { (portal : PortalRecord) × (slice_get self.now.portals exit.now.portal ≡ Some portal) × (result.winding ≡ portal.winding) × (result.into ≡ portal.into) }
    {
        let portal = &self.portals[exit.portal as usize];
        MeasuredPane::of(&portal.pane, &exit.extent)
    }
}
