ghost use Rattle.std.specs.Prelude.{◌≡◌, ◌≢◌, ◌<◌, ◌≤◌, ℕ, List, ◌++◌, length, take, slice_index, IfOk, MatchResult, Ok};
ghost use Rattle.qm_lists.specs.Spelling.{SpellsRow};
ghost use Rattle.qm_lists.specs.inner.ReadRuns.{read_due};
ghost use Rattle.qm_formats.specs.Runs.{read_runs};
ghost use Rattle.qm_runs.specs.Answers.{IsRunFault};
ghost use Rattle.qm_runs.specs.inner.NextPart.{IsNext};

use crate::run_fault::RunFault;
use std::alloc::Global;

/// The row of a width whose spelling the bytes begin with, and how many bytes that takes; or the fault of the first byte
/// that no spelling of such a row allows.
pub fn decode(alloc: Global, bytes: &[u8], width: usize) -> Result<(Vec<u8>, usize), RunFault>
    // What is read is spelt so.
    ensures found { IfOk result (λ read. (read.1 ≤ length bytes.now) × (length read.0.items ≡ width) × SpellsRow (take read.1 bytes.now) read.0.items) }
    // What is spelt so is read, unless memory runs out.
    ensures only { (spelling row rest : List ℕ) → SpellsRow spelling row → length row ≡ width → bytes.now ≡ spelling ++ rest → MatchResult result (λ read. (read.0.items ≡ row) × (read.1 ≡ length spelling)) (λ fault. fault ≡ RunFault.Memory) }
    // Which fault it is.
    ensures exact { MatchResult result (λ read. read_runs width bytes.now ≡ Ok (read.0.items, read.1)) (λ fault. IsRunFault fault (read_runs width bytes.now)) }
{
    read_row(alloc, bytes, width)
}

fn read_row(alloc: Global, bytes: &[u8], width: usize) -> Result<(Vec<u8>, usize), RunFault>
    ensures { MatchResult result (λ read. read_runs width bytes.now ≡ Ok (read.0.items, read.1)) (λ fault. IsRunFault fault (read_runs width bytes.now)) }
{
    let mut row = Vec::new(alloc);
    let used = decode_into(bytes, width, &mut row)?;
    Ok((row, used))
}

/// Reads a row as `decode` does, into a list that is emptied before, and answers how many bytes that takes. After a fault
/// the list has some part of a row.
pub fn decode_into(bytes: &[u8], width: usize, row: &mut Vec<u8>) -> Result<usize, RunFault>
    ensures exact { MatchResult result (λ used. read_runs width bytes.now ≡ Ok (row.new.items, used)) (λ fault. IsRunFault fault (read_runs width bytes.now)) }
    ensures width { IfOk result (λ _. length row.new.items ≡ width) }
    ensures within { IfOk result (λ used. used ≤ length bytes.now) }
{
    row.clear();
    let mut rest = bytes;
    let mut used = 0;
    let mut behind_run = false;
    while row.len() < width {
        match next_part(rest, width - row.len(), behind_run)? {
            Part::Bytes(count) => {
                let (part, behind) = rest.split_at(count);
                row.extend_from_slice(part)?;
                rest = behind;
                used += count;
                behind_run = false;
            }
            Part::Zeros(count) => {
                row.resize(row.len() + count as usize, 0)?;
                rest = rest.split_at(2).1;
                used += 2;
                behind_run = count < 255;
            }
        }
    }
    Ok(used)
}

/// What a row goes on with: so many bytes that are not zero, or a run of zeros.
#[derive(Clone, Copy)]
enum Part {
    Bytes(usize),
    Zeros(u8),
}

/// The part that comes next in a row of which so many bytes are due, where a run that could be longer may stand before.
fn next_part(rest: &[u8], due: usize, behind_run: bool) -> Result<Part, RunFault>
    requires { 0 < due }
    ensures { MatchResult result (λ part. IsNext part due behind_run rest.now) (λ fault. IsRunFault fault (read_due due behind_run rest.now)) }
{
    if rest.is_empty() {
        return Err(RunFault::Short);
    }
    if rest[0] != 0 {
        return Ok(Part::Bytes(nonzero_length(rest, due)));
    }
    if behind_run {
        return Err(RunFault::SplitRun);
    }
    if rest.len() < 2 {
        return Err(RunFault::Short);
    }
    let count = rest[1];
    if count == 0 {
        return Err(RunFault::ZeroCount);
    }
    if count as usize > due {
        return Err(RunFault::Overrun);
    }
    Ok(Part::Zeros(count))
}

/// With how many bytes that are not zero the bytes begin, so many at most.
fn nonzero_length(bytes: &[u8], most: usize) -> usize
    ensures few { result ≤ most }
    ensures there { result ≤ length bytes.now }
    ensures nonzero { (k : ℕ) → k < result → slice_index bytes.now k ≢ 0 }
    ensures longest { result < most → result < length bytes.now → slice_index bytes.now result ≡ 0 }
{
    let part = bytes.split_at(bytes.len().min(most)).0;
    for (i, byte) in part.iter().enumerate() {
        if *byte == 0 {
            return i;
        }
    }
    part.len()
}
