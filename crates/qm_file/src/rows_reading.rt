//! Rows of visibility, read at a place.

ghost use Rattle.std.specs.Prelude.{◌≡◌, ◌<◌, ◌≤◌, ◌+◌, ◌*◌, ℕ, true, List, Result, length, take, drop, replicate, IfOk};
ghost use Rattle.std.specs.Int.{w64, to_le_bytes};
ghost use Rattle.qm_formats.specs.Layout.{each, present};
ghost use Rattle.qm_lists.specs.Spelling.{RunFaultKind};
ghost use Rattle.qm_formats.specs.Runs.{in_runs, row_answer};
ghost use Rattle.qm_formats.specs.RowBits.{row_width, unpacked, is_clear_past, row_bits};
ghost use Rattle.qm_formats.specs.FileParts.{short, row_form};
ghost use Rattle.qm_formats.specs.FileLayout.{own_row_layout, rows_layout};
ghost use Rattle.qm_runs.specs.Answers.{IsRunFault};
ghost use Rattle.qm_file.specs.Answers.{IsFaultOfFile, AnswersTreeFile};
ghost use Rattle.qm_file.specs.inner.SeenHeader.{seen_header};

use crate::field_reading::word_from;
use crate::file_fault::{FileFault, short};
use crate::header_reading::Header;
use crate::record_reading::room_for;
use qm_bits::BitRow;
use qm_lists::Items;
use qm_runs::RunFault;
use std::alloc::{AllocError, Global};

/// The rows of a file of this header where they are there, and where they end.
#[tactic(auto, unfolding(qm_formats::specs::FileLayout::rows_layout))]
pub(crate) fn rows_at(
    alloc: Global,
    bytes: &[u8],
    at: usize,
    header: &Header,
) -> Result<(Option<Items<BitRow>>, usize), FileFault>
    ensures { AnswersTreeFile (λ read. read.0) (λ read. read.1) result ((rows_layout (seen_header header.now)).read bytes.now at) }
{
    if !header.has_rows {
        return Ok((None, at));
    }
    let (rows, next) = all_rows_at(alloc, bytes, at, header.numbered)?;
    Ok((Some(Items::from_vec(rows)), next))
}

/// A row for each of so many leaves, with a place for each, and where they end.
fn all_rows_at(
    alloc: Global,
    bytes: &[u8],
    at: usize,
    numbered: u64,
) -> Result<(Vec<BitRow>, usize), FileFault>
    ensures { AnswersTreeFile (λ read. read.0.items) (λ read. read.1) result ((each (own_row_layout numbered) numbered).read bytes.now at) }
{
    let full = BitRow::full(alloc, numbered)?;
    let mut packed = Vec::new(alloc);
    let mut rows = Vec::with_capacity(alloc, room_for_rows(bytes, at, numbered))?;
    let mut next = at;
    for k in 0..numbered {
        let (row, after) = own_row_at(alloc, bytes, next, numbered, k, &full, &mut packed)?;
        rows.push(row)?;
        next = after;
    }
    Ok((rows, next))
}

/// How many rows of so many places the bytes from a place on have, at most: a row has two bytes for each 255 zero bytes.
fn room_for_rows(bytes: &[u8], at: usize, places: u64) -> usize {
    room_for(bytes, at, places, (places / 1024 + 1) as usize)
}

/// A row of so many places in which place `k` is set, and where it ends. Its packed bytes are put into a list that is used
/// again for each row.
#[tactic(auto, unfolding(qm_formats::specs::FileLayout::own_row_layout))]
fn own_row_at(
    alloc: Global,
    bytes: &[u8],
    at: usize,
    places: u64,
    k: u64,
    full: &BitRow,
    packed: &mut Vec<u8>,
) -> Result<(BitRow, usize), FileFault>
    requires within { k < places }
    requires full { full.now ≡ replicate places true }
    ensures { AnswersTreeFile (λ read. read.0) (λ read. read.1) result ((own_row_layout places k).read bytes.now at) }
{
    let (row, next) = row_at(alloc, bytes, at, places, full, packed)?;
    if !row.get(k) {
        return Err(FileFault::RowForm { offset: at as u64 });
    }
    Ok((row, next))
}

/// A row of so many places, and where it ends.
#[tactic(auto, unfolding(qm_formats::specs::RowBits::row_bits))]
fn row_at(
    alloc: Global,
    bytes: &[u8],
    at: usize,
    places: u64,
    full: &BitRow,
    packed: &mut Vec<u8>,
) -> Result<(BitRow, usize), FileFault>
    requires { full.now ≡ replicate places true }
    ensures gives { AnswersTreeFile (λ read. read.0) (λ read. read.1) result ((row_bits short row_form places).read bytes.now at) }
    ensures places { IfOk result (λ read. length read.0 ≡ places) }
{
    let next = packed_row_at(bytes, at, places, packed)?;
    if !is_clear_past(places, packed) {
        return Err(FileFault::RowForm { offset: at as u64 });
    }
    let row = unpacked(alloc, places, full, packed)?;
    Ok((row, next))
}

/// The bytes of a row of so many places, and where its runs end.
#[tactic(auto, unfolding(qm_formats::specs::Runs::in_runs))]
fn packed_row_at(
    bytes: &[u8],
    at: usize,
    places: u64,
    packed: &mut Vec<u8>,
) -> Result<usize, FileFault>
    ensures gives { AnswersTreeFile (λ _. packed.new.items) (λ next. next) result ((in_runs short row_form (row_width places)).read bytes.now at) }
    ensures width { IfOk result (λ _. length packed.new.items ≡ row_width places) }
{
    let rest = bytes.split_at(at.min(bytes.len())).1;
    match qm_runs::decode_into(rest, places.div_ceil(8) as usize, packed) {
        Ok(used) => Ok(at + used),
        Err(fault) => Err(row_fault(bytes, at, fault)),
    }
}

/// The fault of a row at a place whose runs have a fault.
fn row_fault(bytes: &[u8], at: usize, fault: RunFault) -> FileFault
    ensures { (read : Result (List ℕ × ℕ) RunFaultKind) → IsRunFault fault read → IsFaultOfFile result (row_answer short row_form bytes.now at read) }
{
    match fault {
        RunFault::Short => short(bytes),
        RunFault::ZeroCount | RunFault::SplitRun | RunFault::Overrun => {
            FileFault::RowForm { offset: at as u64 }
        }
        RunFault::Memory => FileFault::Memory,
    }
}

/// Whether no bit past the places is set.
#[tactic(auto, unfolding(qm_formats::specs::RowBits::is_clear_past))]
fn is_clear_past(places: u64, packed: &[u8]) -> bool
    requires { length packed.now ≡ row_width places }
    ensures { result ≡ is_clear_past places packed.now }
{
    if places % 8 == 0 {
        return true;
    }
    packed[(places / 8) as usize] >> (places % 8) == 0
}

/// The row of so many places whose bits stand in these bytes. Zeros are put behind them up to a whole word.
fn unpacked(
    alloc: Global,
    places: u64,
    full: &BitRow,
    packed: &mut Vec<u8>,
) -> Result<BitRow, AllocError>
    requires width { length packed.old.items ≡ row_width places }
    requires full { full.now ≡ replicate places true }
    ensures { IfOk result (λ row. row ≡ unpacked places packed.old.items) }
{
    packed.resize(8 * places.div_ceil(64) as usize, 0)?;
    let mut row = BitRow::with_len(alloc, places)?;
    row.copy_from(full);
    for k in 0..places.div_ceil(64) {
        row.and_word(k, word_at(packed, k));
    }
    Ok(row)
}

/// Word `k`: its bytes are the eight from byte `8 * k` on.
fn word_at(packed: &[u8], k: u64) -> u64
    requires { 8 * k + 8 ≤ length packed.now }
    ensures { to_le_bytes w64 result ≡ take 8 (drop (8 * k) packed.now) }
{
    word_from(packed, 8 * k as usize)
}
