//! The bits of rows as bytes.

ghost use Rattle.std.specs.Prelude.{◌≡◌, ◌++◌, ℕ, List, Bool, OnOk};
ghost use Rattle.std.specs.List.{flat_map};
ghost use Rattle.qm_formats.specs.RowBits.{packed};
ghost use Rattle.qm_lists.specs.Spelling.{runs_of};
ghost use Rattle.qm_file.specs.inner.RowsBytes.{rows_bytes};

use qm_bits::BitRow;
use qm_lists::Items;
use std::alloc::{AllocError, Global};

/// Appends the rows where they are there.
pub(crate) fn put_rows(
    alloc: Global,
    bytes: &mut Vec<u8>,
    rows: &Option<Items<BitRow>>,
) -> Result<(), AllocError>
    ensures { OnOk result (bytes.new.items ≡ bytes.old.items ++ rows_bytes rows.now) }
{
    match rows {
        Some(rows) => append_rows(alloc, bytes, rows.as_slice()),
        None => Ok(()),
    }
}

/// Appends each row in runs.
fn append_rows(alloc: Global, bytes: &mut Vec<u8>, rows: &[BitRow]) -> Result<(), AllocError>
    ensures { OnOk result (bytes.new.items ≡ bytes.old.items ++ flat_map (λ row. runs_of (packed row)) rows.now) }
{
    let mut row_bytes = Vec::new(alloc);
    for row in rows {
        row_bytes.clear();
        append_bits(row, &mut row_bytes)?;
        qm_runs::encode(&row_bytes, bytes)?;
    }
    Ok(())
}

/// Appends the bytes of a row, word by word.
fn append_bits(row: &BitRow, bytes: &mut Vec<u8>) -> Result<(), AllocError>
    ensures { OnOk result (bytes.new.items ≡ bytes.old.items ++ packed row.now) }
{
    for k in 0..row.len().div_ceil(8) {
        bytes.push(row.word(k / 8).to_le_bytes()[(k % 8) as usize])?;
    }
    Ok(())
}
