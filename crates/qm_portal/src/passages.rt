//! The portals of touching pairs.

ghost use Rattle.std.specs.Prelude.{◌≡◌, ◌++◌, All, count_by, IfOk, OnOk};
ghost use Rattle.qm_space.specs.Turned.{turned};
ghost use Rattle.qm_wind.specs.Clipped.{is_front};
ghost use Rattle.qm_partition.specs.Counting.{leaves_of};
ghost use Rattle.qm_contacts.specs.Portals.{is_passage, both_ways, portals_of};
ghost use Rattle.qm_contacts.specs.inner.LeafNumbers.{AreBefore};
ghost use Rattle.qm_contacts.specs.inner.LeavesThere.{HasItsLeaves};

use crate::numbers::is_numbered;
use crate::portal::Portal;
use crate::touching::Touching;
use qm_tree::Tree;
use qm_wind::{Pane, Side};
use std::alloc::{AllocError, Global};

/// The portals of touching pairs in their order, where each leaf has so many numbered ones before it.
pub(crate) fn portals(
    alloc: Global,
    tree: &Tree,
    before: &[u64],
    pairs: &[Touching],
) -> Result<Vec<Portal>, AllocError>
    requires before { AreBefore (leaves_of tree.now.shape) before.now }
    requires leaves { All (HasItsLeaves tree.now) pairs.now }
    ensures { IfOk result (λ portals. portals.items ≡ portals_of tree.now pairs.now) }
{
    let mut portals = Vec::with_capacity(alloc, 2 * count_passages(tree, pairs))?;
    for pair in pairs {
        if is_passage(tree, pair) {
            add_both_ways(&mut portals, tree, before, pair)?;
        }
    }
    Ok(portals)
}

/// How many of the pairs are passages.
fn count_passages(tree: &Tree, pairs: &[Touching]) -> usize
    requires { All (HasItsLeaves tree.now) pairs.now }
    ensures { result ≡ count_by (is_passage tree.now) pairs.now }
{
    let mut count = 0;
    for pair in pairs {
        if is_passage(tree, pair) {
            count += 1;
        }
    }
    count
}

/// Whether both leaves of a pair are numbered, and of equal contents.
fn is_passage(tree: &Tree, pair: &Touching) -> bool
    requires { HasItsLeaves tree.now pair.now }
    ensures { result ≡ is_passage tree.now pair.now }
{
    let front = tree.leaf(pair.front);
    let back = tree.leaf(pair.back);
    is_numbered(&front) && front.contents == back.contents
}

/// Adds the portal from the leaf in front to the leaf behind, and the one back.
fn add_both_ways(
    portals: &mut Vec<Portal>,
    tree: &Tree,
    before: &[u64],
    pair: &Touching,
) -> Result<(), AllocError>
    requires before { AreBefore (leaves_of tree.now.shape) before.now }
    requires leaves { HasItsLeaves tree.now pair.now }
    ensures { OnOk result (portals.new.items ≡ portals.old.items ++ both_ways tree.now pair.now) }
{
    let front = before[pair.front as usize];
    let back = before[pair.back as usize];
    portals.push(portal_to(pair, Side::Back, front, back)?)?;
    portals.push(portal_to(pair, Side::Front, back, front)?)?;
    Ok(())
}

/// The portal to one side of a pair's polygon.
fn portal_to(pair: &Touching, side: Side, from: u64, to: u64) -> Result<Portal, AllocError>
    ensures { IfOk result (λ portal. portal ≡ record { winding = pair.now.winding; into = turned (is_front side) pair.now.winding.plane; from = from; to = to }) }
{
    let winding = pair.winding.copy()?;
    Ok(Portal {
        pane: Pane::entering(winding, side),
        from,
        to,
    })
}
