//! The steps of all leaves, found breadth first from the outside.

ghost use Rattle.std.specs.Prelude.{◌≡◌, ◌<◌, ◌+◌, [], All, length, slice_index_or, IfOk, OnOk, IsTrue, ◌↔◌};
ghost use Rattle.qm_partition.specs.Counting.{leaf_count};
ghost use Rattle.qm_contacts.specs.Contacts.{AreContacts};
ghost use Rattle.qm_contacts.specs.Reached.{Begins};
ghost use Rattle.qm_flood.specs.inner.Spreading.{IsSpreading, AreLeafSteps, CanGoOn, GoesOnToOneOf};
ghost use Rattle.qm_lists.specs.inner.Steps.{SpreadsOn};

use crate::passable::is_passable_leaf;
use qm_portal::TouchList;
use qm_tree::Tree;
use std::alloc::{AllocError, Global};

/// For each leaf how many leaves the shortest way to the outside has, by passable leaves; 0 where the outside does not
/// reach it.
pub(crate) fn steps_from_outside(
    alloc: Global,
    touches: &TouchList,
    tree: &Tree,
) -> Result<Vec<u64>, AllocError>
    requires { AreContacts tree.now touches.now }
    ensures { IfOk result (λ steps. AreLeafSteps tree.now steps.items) }
{
    let mut steps = Vec::with_capacity(alloc, tree.leaves() as usize)?;
    let mut found = Vec::new(alloc);
    begin(touches, tree, &mut steps, &mut found)?;
    let mut passed = 0;
    while passed < found.len() {
        pass(touches, tree, passed, &mut steps, &mut found)?;
        passed += 1;
    }
    Ok(steps)
}

/// The leaves with which the outside begins have one step, and all others none yet.
fn begin(
    touches: &TouchList,
    tree: &Tree,
    steps: &mut Vec<u64>,
    found: &mut Vec<u64>,
) -> Result<(), AllocError>
    requires contacts { AreContacts tree.now touches.now }
    requires no_steps { steps.old.items ≡ [] }
    requires none_found { found.old.items ≡ [] }
    ensures { OnOk result (IsSpreading tree.now steps.new.items found.new.items 0) }
{
    for leaf in 0..tree.leaves() {
        if begins(touches, tree, leaf) {
            steps.push(1)?;
            found.push(leaf)?;
        } else {
            steps.push(0)?;
        }
    }
    Ok(())
}

/// Whether the outside begins with a leaf: it touches it, and the leaf can be passed.
fn begins(touches: &TouchList, tree: &Tree, leaf: u64) -> bool
    requires contacts { AreContacts tree.now touches.now }
    requires within { leaf < leaf_count tree.now.shape }
    ensures { IsTrue result ↔ Begins tree.now leaf }
{
    touches.outside(leaf) && is_passable_leaf(tree, leaf)
}

/// Passes the leaf at a place of those found: the leaves to which it goes, and that have no steps yet, get one more.
fn pass(
    touches: &TouchList,
    tree: &Tree,
    passed: usize,
    steps: &mut Vec<u64>,
    found: &mut Vec<u64>,
) -> Result<(), AllocError>
    requires contacts { AreContacts tree.now touches.now }
    requires spreading { IsSpreading tree.now steps.old.items found.old.items passed }
    requires left { passed < length found.old.items }
    ensures { OnOk result (IsSpreading tree.now steps.new.items found.new.items (passed + 1)) }
{
    let leaf = found[passed];
    go_on(tree, leaf, touches.neighbours(leaf), steps, found)
}

/// Goes on from a leaf to those of others that can be passed and have no steps: they get one more than it has.
fn go_on(
    tree: &Tree,
    leaf: u64,
    others: &[u64],
    steps: &mut Vec<u64>,
    found: &mut Vec<u64>,
) -> Result<(), AllocError>
    requires within { All (λ other. other < leaf_count tree.now.shape) others.now }
    requires from { CanGoOn tree.now leaf steps.old.items found.old.items }
    ensures { OnOk result (GoesOnToOneOf tree.now others.now leaf steps.old.items steps.new.items found.old.items found.new.items) }
{
    let count = steps[leaf as usize] + 1;
    for other in others {
        if steps[*other as usize] == 0 && is_passable_leaf(tree, *other) {
            steps[*other as usize] = count;
            found.push(*other)?;
        }
    }
    Ok(())
}
