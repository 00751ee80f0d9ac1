ghost use Rattle.std.specs.Prelude.{◌≡◌, ◌<◌, ◌≤◌, ◌++◌, ℕ, List, zero, length, drop, replicate, OnOk, OnErr};
ghost use Rattle.qm_lists.specs.Spelling.{BeginsNonzero, SpellsRow, runs_of, longest_run};

use std::alloc::AllocError;

/// Appends the one spelling of a row. After an error `out` is as it was.
pub fn encode(row: &[u8], out: &mut Vec<u8>) -> Result<(), AllocError>
    ensures ok { OnOk result (out.new.items ≡ out.old.items ++ runs_of row.now) }
    ensures err { OnErr result (out.new.items ≡ out.old.items) }
{
    let start = out.len();
    let appended = append_runs(row, out);
    if appended.is_err() {
        out.truncate(start);
    }
    appended
}

/// Appends the spelling of a row, or where memory runs out a part of it.
fn append_runs(row: &[u8], out: &mut Vec<u8>) -> Result<(), AllocError>
    ensures ok { OnOk result (out.new.items ≡ out.old.items ++ runs_of row.now) }
    ensures front { (more : List ℕ) × (out.new.items ≡ out.old.items ++ more) }
{
    let mut rest = row;
    while let Some(first) = rest.first() {
        if *first != 0 {
            out.push(*first)?;
            rest = rest.split_at(1).1;
        } else {
            let count = run_length(rest);
            out.push(0)?;
            out.push(count as u8)?;
            rest = rest.split_at(count).1;
        }
    }
    Ok(())
}

/// How many zeros a row begins with, 255 at most.
fn run_length(row: &[u8]) -> usize
    ensures zeros { row.now ≡ replicate result zero ++ drop result row.now }
    ensures small { result ≤ longest_run }
    ensures longest { result < longest_run → BeginsNonzero (drop result row.now) }
{
    let mut count = 0;
    for byte in row {
        if *byte != 0 || count == 255 {
            return count;
        }
        count += 1;
    }
    count
}
