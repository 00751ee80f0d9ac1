//! Leaves that are numbered.

ghost use Rattle.std.specs.Prelude.{◌≡◌, ◌≤◌, Some, IfOk, length, slice_get, take, count_by};
ghost use Rattle.qm_partition.specs.Counting.{leaves_of};
ghost use Rattle.qm_contacts.specs.NumberedLeaves.{is_numbered};
ghost use Rattle.qm_formats.specs.TreeFile.{IsValidFile};
ghost use Rattle.qm_answers.specs.Answers.{IsNumberOfLeaf};
ghost use Rattle.qm_answers.specs.DecodedSections.{numbered_count};
ghost use Rattle.qm_inspect.specs.inner.BlockCounts.{AreBlockCounts};

use qm_contents::Contents;
use qm_file::TreeFile;
use qm_partition::Leaf;
use qm_tree::Tree;
use std::alloc::{AllocError, Global};

/// How many leaves a block has.
const BLOCK: usize = 64;

/// How many leaves are numbered, which are those that are not solid.
pub(crate) fn count_numbered(leaves: &[Leaf]) -> u64
    ensures { result ≡ count_by is_numbered leaves.now }
{
    leaves
        .iter()
        .filter(|leaf| leaf.contents != Contents::Solid)
        .count() as u64
}

/// How many leaves are numbered before each block.
pub(crate) fn block_counts(alloc: Global, leaves: &[Leaf]) -> Result<Vec<u64>, AllocError>
    ensures { IfOk result (λ counts. AreBlockCounts leaves.now counts.items) }
{
    let mut counts = Vec::new(alloc);
    counts.push(0)?;
    for k in 1..leaves.len().div_ceil(BLOCK) {
        let before = numbered_before(leaves, &counts, BLOCK * k);
        counts.push(before)?;
    }
    Ok(counts)
}

/// How many leaves are numbered before a place. Those before the last block of which this was counted are not gone through.
fn numbered_before(leaves: &[Leaf], counts: &[u64], end: usize) -> u64
    requires counts { AreBlockCounts leaves.now counts.now }
    requires within { end ≤ length leaves.now }
    ensures { result ≡ count_by is_numbered (take end leaves.now) }
{
    let block = (end / BLOCK).min(counts.len() - 1);
    counts[block] + count_numbered(&leaves[BLOCK * block..end])
}

/// How many leaves of a file are numbered. Where rows are there, there is one for each.
pub(crate) fn numbered(file: &TreeFile, counts: &[u64]) -> u64
    requires valid { IsValidFile file.now }
    requires counts { AreBlockCounts (leaves_of file.now.tree.shape) counts.now }
    ensures { result ≡ numbered_count file.now }
{
    let leaves = file.tree.all_leaves();
    match &file.rows {
        Some(rows) => rows.len() as u64,
        None => numbered_before(leaves, counts, leaves.len()),
    }
}

/// The number of a leaf, where it is numbered: how many numbered ones come before it.
pub(crate) fn number_of_leaf(tree: &Tree, counts: &[u64], leaf: u64, found: Leaf) -> Option<u64>
    requires counts { AreBlockCounts (leaves_of tree.now.shape) counts.now }
    requires found { slice_get (leaves_of tree.now.shape) leaf ≡ Some found }
    ensures { IsNumberOfLeaf tree.now leaf result }
{
    if !is_numbered(&found) {
        return None;
    }
    Some(numbered_before(tree.all_leaves(), counts, leaf as usize))
}

/// Whether a leaf is numbered.
fn is_numbered(leaf: &Leaf) -> bool
    ensures { result ≡ is_numbered leaf.now }
{
    leaf.contents != Contents::Solid
}
