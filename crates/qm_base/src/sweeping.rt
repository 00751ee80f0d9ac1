//! Floods of 64 lanes at a time: a word for each leaf, whose bit j says whether lane j has found the leaf.

ghost use Rattle.std.specs.Prelude.{◌≡◌, ◌<◌, ◌≤◌, All, length, IfOk};
ghost use Rattle.qm_contacts.specs.NumberedLeaves.{numbered_leaves};
ghost use Rattle.qm_base.specs.inner.Sweeping.{ArePassed, IsPassing, IsSweep, IsSpread, IsFlooded, AreBegun, AreFlooded};
ghost use Rattle.qm_base.specs.inner.Entering.{AreEnteredLeaves};

use crate::lane::Lane;
use qm_portal::World;
use std::alloc::{AllocError, Global};

/// What lanes find that go on by the portals whose word has their bit, by the leaves that portals enter.
pub(crate) fn flooded(
    alloc: Global,
    world: &World,
    entered: &[usize],
    ways: &[u64],
    lanes: &[Lane],
) -> Result<Vec<u64>, AllocError>
    requires few { length lanes.now ≤ 64 }
    requires lanes { All (λ lane. lane.portal < length world.now.portals) lanes.now }
    requires entered { AreEnteredLeaves world.now entered.now }
    requires one_each { length ways.now ≡ length world.now.portals }
    ensures { IfOk result (λ seen. AreFlooded world.now ways.now lanes.now seen.items) }
{
    let mut seen = begun(alloc, world, lanes)?;
    let mut passed = vec![in alloc; 0; world.leaves() as usize]?;
    flood(world, entered, ways, &mut seen, &mut passed);
    Ok(seen)
}

/// The leaves that lanes enter.
fn begun(alloc: Global, world: &World, lanes: &[Lane]) -> Result<Vec<u64>, AllocError>
    requires few { length lanes.now ≤ 64 }
    requires lanes { All (λ lane. lane.portal < length world.now.portals) lanes.now }
    ensures { IfOk result (λ seen. AreBegun world.now lanes.now seen.items) }
{
    let mut seen = vec![in alloc; 0; world.leaves() as usize]?;
    for j in 0..lanes.len() {
        let leaf = world.to(lanes[j].portal) as usize;
        seen[leaf] |= 1 << j;
    }
    Ok(seen)
}

/// Sweeps over the leaves, up and down in turn, until a sweep finds all leaves passed.
fn flood(world: &World, entered: &[usize], ways: &[u64], seen: &mut [u64], passed: &mut [u64])
    requires entered { AreEnteredLeaves world.now entered.now }
    requires one_each { length ways.now ≡ length world.now.portals }
    requires passed { ArePassed world.now ways.now seen.old passed.old }
    ensures { IsFlooded world.now ways.now seen.old seen.new }
{
    'turns: loop {
        if !sweep_up(world, entered, ways, seen, passed) {
            return;
        }
        if !sweep_down(world, entered, ways, seen, passed) {
            return;
        }
    }
}

/// Passes all leaves in turn. Whether some leaf was due in some lane.
fn sweep_up(
    world: &World,
    entered: &[usize],
    ways: &[u64],
    seen: &mut [u64],
    passed: &mut [u64],
) -> bool
    requires entered { AreEnteredLeaves world.now entered.now }
    requires one_each { length ways.now ≡ length world.now.portals }
    requires passed { ArePassed world.now ways.now seen.old passed.old }
    ensures { IsSweep world.now ways.now seen.old seen.new passed.old passed.new result }
{
    let mut due = false;
    for leaf in 0..seen.len() {
        due |= pass(world, entered, ways, leaf, seen, passed);
    }
    due
}

/// Passes all leaves in turn, the last one first. Whether some leaf was due in some lane.
fn sweep_down(
    world: &World,
    entered: &[usize],
    ways: &[u64],
    seen: &mut [u64],
    passed: &mut [u64],
) -> bool
    requires entered { AreEnteredLeaves world.now entered.now }
    requires one_each { length ways.now ≡ length world.now.portals }
    requires passed { ArePassed world.now ways.now seen.old passed.old }
    ensures { IsSweep world.now ways.now seen.old seen.new passed.old passed.new result }
{
    let mut due = false;
    for leaf in (0..seen.len()).rev() {
        due |= pass(world, entered, ways, leaf, seen, passed);
    }
    due
}

/// Passes a leaf in the lanes that have found it and not passed it. Whether there are any.
fn pass(
    world: &World,
    entered: &[usize],
    ways: &[u64],
    leaf: usize,
    seen: &mut [u64],
    passed: &mut [u64],
) -> bool
    requires entered { AreEnteredLeaves world.now entered.now }
    requires one_each { length ways.now ≡ length world.now.portals }
    requires leaf { leaf < length (numbered_leaves world.now.tree) }
    requires passed { ArePassed world.now ways.now seen.old passed.old }
    ensures { IsPassing world.now ways.now leaf seen.old seen.new passed.old passed.new result }
{
    let due = seen[leaf] ^ passed[leaf];
    if due == 0 {
        return false;
    }
    passed[leaf] = seen[leaf];
    spread(world, entered, ways, leaf, due, seen);
    true
}

/// Finds in the lanes that are due what they come to from a leaf.
fn spread(world: &World, entered: &[usize], ways: &[u64], leaf: usize, due: u64, seen: &mut [u64])
    requires entered { AreEnteredLeaves world.now entered.now }
    requires one_each { length ways.now ≡ length world.now.portals }
    requires leaf { leaf < length (numbered_leaves world.now.tree) }
    requires wide { length seen.old ≡ length (numbered_leaves world.now.tree) }
    ensures { IsSpread world.now.portals ways.now leaf due seen.old seen.new }
{
    let leaving = world.leaving(leaf as u64);
    for q in leaving {
        seen[entered[*q as usize]] |= due & ways[*q as usize];
    }
}
