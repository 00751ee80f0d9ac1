//! From words for leaves to rows of lanes.

ghost use Rattle.std.specs.Prelude.{◌≡◌, ◌<◌, ◌≤◌, true, length, replicate, IfOk};
ghost use Rattle.qm_base.specs.inner.Sweeping.{IsColumn};
ghost use Rattle.qm_base.specs.inner.Columns.{IsGathered};

use qm_bits::BitRow;
use std::alloc::{AllocError, Global};

/// The leaves that a lane has found, of a row of all leaves: 64 at a time.
pub(crate) fn column(
    alloc: Global,
    seen: &[u64],
    all: &BitRow,
    bit: usize,
) -> Result<BitRow, AllocError>
    requires bit { bit < 64 }
    requires all { all.now ≡ replicate (length seen.now) true }
    ensures { IfOk result (λ row. IsColumn seen.now bit row) }
{
    let mut row = BitRow::with_len(alloc, seen.len() as u64)?;
    row.copy_from(all);
    for k in 0..seen.len().div_ceil(64) {
        let first = 64 * k;
        let end = (seen.len() - first).min(64) + first;
        row.and_word(k as u64, gathered(&seen[first..end], bit));
    }
    Ok(row)
}

/// The bits at one place of some words, that of word i as bit i.
fn gathered(words: &[u64], bit: usize) -> u64
    requires bit { bit < 64 }
    requires few { length words.now ≤ 64 }
    ensures { IsGathered words.now bit result }
{
    let mut gathered = 0;
    for i in 0..words.len() {
        if (words[i] >> bit) & 1 == 1 {
            gathered |= 1 << i;
        }
    }
    gathered
}
