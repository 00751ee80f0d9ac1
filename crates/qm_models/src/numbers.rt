ghost use Rattle.std.specs.Prelude.{◌<◌, ℕ, List, [], ◌∷◌, ◌++◌, All, IfOk, OnOk};
ghost use Rattle.qm_partition.specs.Counting.{leaf_count};
ghost use Rattle.qm_outlines.specs.Outlines.{AreFoundNumbers, AreSortedNumbers};

use qm_portal::World;
use std::alloc::{AllocError, Global};

/// The numbers of some leaves of a world's tree, as far as these are numbered, ascending. The leaves may come in any order, and
/// as often as they like.
pub fn numbers_of(alloc: Global, world: &World, leaves: &[u64]) -> Result<Vec<u64>, AllocError>
    requires within { All (λ k. k < leaf_count world.now.tree.shape) leaves.now }
    ensures { IfOk result (λ numbers. AreSortedNumbers world.now.tree leaves.now numbers.items) }
{
    let mut numbers = found_numbers(alloc, world, leaves)?;
    numbers.sort_unstable();
    numbers.dedup();
    Ok(numbers)
}

/// The same numbers in the order of the leaves.
fn found_numbers(alloc: Global, world: &World, leaves: &[u64]) -> Result<Vec<u64>, AllocError>
    requires within { All (λ k. k < leaf_count world.now.tree.shape) leaves.now }
    ensures { IfOk result (λ numbers. AreFoundNumbers world.now.tree leaves.now numbers.items) }
{
    let mut numbers = Vec::new(alloc);
    for leaf in leaves {
        add_number(world, *leaf, &mut numbers)?;
    }
    Ok(numbers)
}

/// Adds the number of a leaf, if it has one.
fn add_number(world: &World, leaf: u64, numbers: &mut Vec<u64>) -> Result<(), AllocError>
    requires within { leaf < leaf_count world.now.tree.shape }
    ensures { OnOk result ((leaves : List ℕ) → AreFoundNumbers world.now.tree leaves numbers.old.items →
        AreFoundNumbers world.now.tree (leaves ++ leaf ∷ []) numbers.new.items) }
{
    match world.number(leaf) {
        Some(number) => {
            numbers.push(number)?;
            Ok(())
        }
        None => Ok(()),
    }
}
