//! The numbers of leaves: those that are not solid are numbered in their order.

ghost use Rattle.std.specs.Prelude.{◌≡◌, IfOk};
ghost use Rattle.qm_contacts.specs.NumberedLeaves.{is_numbered};
ghost use Rattle.qm_contacts.specs.inner.LeafNumbers.{AreNumbersOf};

use qm_contents::Contents;
use qm_partition::Leaf;
use std::alloc::{AllocError, Global};

/// The numbered ones of some leaves, and for each leaf how many numbered ones come before it.
#[derive(Drop)]
pub(crate) struct Numbers {
    pub(crate) numbered: Vec<u64>,
    pub(crate) before: Vec<u64>,
}

impl Numbers {
    /// The numbers of these leaves.
    pub(crate) fn of(alloc: Global, leaves: &[Leaf]) -> Result<Numbers, AllocError>
        ensures { IfOk result (λ numbers. AreNumbersOf leaves.now numbers.numbered.items numbers.before.items) }
    {
        let mut numbered = Vec::new(alloc);
        let mut before = Vec::with_capacity(alloc, leaves.len())?;
        for k in 0..leaves.len() {
            before.push(numbered.len() as u64)?;
            if is_numbered(&leaves[k]) {
                numbered.push(k as u64)?;
            }
        }
        Ok(Numbers { numbered, before })
    }
}

/// Whether a leaf is numbered.
pub(crate) fn is_numbered(leaf: &Leaf) -> bool
    ensures { result ≡ is_numbered leaf.now }
{
    leaf.contents != Contents::Solid
}
