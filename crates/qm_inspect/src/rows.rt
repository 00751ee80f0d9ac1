//! What rows say.

ghost use Rattle.std.specs.Prelude.{◌≡◌, ◌<◌, length, slice_index_or, false, []};
ghost use Rattle.qm_partition.specs.Counting.{leaves_of};
ghost use Rattle.qm_formats.specs.TreeFile.{IsValidFile};
ghost use Rattle.qm_answers.specs.Answers.{answer_to_row, answer_to_sees};
ghost use Rattle.qm_inspect.specs.inner.BlockCounts.{AreBlockCounts};

use crate::numbered::numbered;
use qm_answers::{Answer, QueryFault};
use qm_bits::BitRow;
use qm_file::TreeFile;
use qm_lists::Items;

/// That the row of a numbered leaf is there. `NoSuchLeaf` exactly where no leaf has this number, and `NoRows` exactly where
/// one has it and rows are not there.
pub(crate) fn row(file: &TreeFile, counts: &[u64], n: u64) -> Result<Answer, QueryFault>
    requires valid { IsValidFile file.now }
    requires counts { AreBlockCounts (leaves_of file.now.tree.shape) counts.now }
    ensures { result ≡ answer_to_row file.now n }
{
    if n >= numbered(file, counts) {
        return Err(QueryFault::NoSuchLeaf);
    }
    if file.rows.is_none() {
        return Err(QueryFault::NoRows);
    }
    Ok(Answer::Row(n))
}

/// Whether the row of leaf number `n` has the leaf number `m`. The faults are those of a row, for either number.
pub(crate) fn sees(file: &TreeFile, counts: &[u64], n: u64, m: u64) -> Result<Answer, QueryFault>
    requires valid { IsValidFile file.now }
    requires counts { AreBlockCounts (leaves_of file.now.tree.shape) counts.now }
    ensures { result ≡ answer_to_sees file.now n m }
{
    let numbered = numbered(file, counts);
    if n >= numbered || m >= numbered {
        return Err(QueryFault::NoSuchLeaf);
    }
    match &file.rows {
        Some(rows) => Ok(Answer::Sees(has_place(rows, n, m))),
        None => Err(QueryFault::NoRows),
    }
}

/// Whether row `n` has place `m`.
fn has_place(rows: &Items<BitRow>, n: u64, m: u64) -> bool
    requires row { n < length rows.now }
    requires places { m < length (slice_index_or rows.now n []) }
    ensures { result ≡ slice_index_or (slice_index_or rows.now n []) m false }
{
    rows.as_slice()[n as usize].get(m)
}
