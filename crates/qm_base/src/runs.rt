//! The kinds of some lanes, each once.

ghost use Rattle.std.specs.Prelude.{◌≡◌, ◌≤◌, ◌<◌, ◌↔◌, ℕ, true, Some, slice_get, length, IfOk, IsTrue};
ghost use Rattle.qm_lists.specs.Word.{has_bit};
ghost use Rattle.qm_base.specs.inner.Runs.{AreRuns, IsOfKind, IsRepeated};

use crate::table::Kind;
use std::alloc::{AllocError, Global};

/// The lanes of one kind, as bits: lane j is bit j.
#[derive(Clone, Copy)]
pub(crate) struct Run {
    pub(crate) kind: Kind,
    pub(crate) lanes: u64,
}

/// The kinds of at most 64 lanes, with the lanes of each. A kind can come twice.
pub(crate) fn runs(alloc: Global, kinds: &[Kind]) -> Result<Vec<Run>, AllocError>
    requires { length kinds.now ≤ 64 }
    ensures { IfOk result (λ runs. AreRuns kinds.now runs.items) }
{
    let mut runs = Vec::new(alloc);
    for j in 0..kinds.len() {
        let kind = kinds[j];
        if !is_repeated(kinds, j) {
            let lanes = lanes_of(kinds, &kind);
            runs.push(Run { kind, lanes })?;
        }
    }
    Ok(runs)
}

/// Whether the lane before has the same kind.
fn is_repeated(kinds: &[Kind], j: usize) -> bool
    requires { j < length kinds.now }
    ensures { IsTrue result → IsRepeated kinds.now j }
{
    j > 0 && kinds[j - 1].is(&kinds[j])
}

/// The lanes of a kind.
fn lanes_of(kinds: &[Kind], kind: &Kind) -> u64
    requires { length kinds.now ≤ 64 }
    ensures { (j : ℕ) → (has_bit result j ≡ true) ↔ IsOfKind kinds.now kind.now j }
{
    let mut lanes = 0;
    for j in 0..kinds.len() {
        if kinds[j].is(kind) {
            lanes |= 1 << j;
        }
    }
    lanes
}
