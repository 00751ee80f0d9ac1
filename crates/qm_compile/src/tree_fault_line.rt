//! How the fault of a tree file is printed.

ghost use Rattle.std.specs.Prelude.{◌≡◌, ◌++◌, IfOk, codes, string_bytes};
ghost use Rattle.std.specs.Fmt.{decimal};
ghost use Rattle.qm_statement.specs.Texts.{line};
ghost use Rattle.qm_compile.specs.inner.FaultLine.{IsTreeFaultLine};

use qm_file::FileFault;
use std::alloc::{AllocError, Global};

/// The line that is printed of a fault: its number, its place, and what it is. Want of memory is no fault of bytes.
pub fn tree_fault_line(alloc: Global, fault: FileFault) -> Result<String, AllocError>
    ensures { IfOk result (λ text. IsTreeFaultLine fault (string_bytes text)) }
{
    match fault {
        FileFault::Short { offset } => fault_line(alloc, 1, offset, "short"),
        FileFault::Magic { offset } => fault_line(alloc, 2, offset, "magic"),
        FileFault::Counts { offset } => fault_line(alloc, 3, offset, "counts"),
        FileFault::PlaneForm { offset } => fault_line(alloc, 4, offset, "plane form"),
        FileFault::NodeOrder { offset } => fault_line(alloc, 5, offset, "node order"),
        FileFault::LeafForm { offset } => fault_line(alloc, 6, offset, "leaf form"),
        FileFault::RowForm { offset } => fault_line(alloc, 7, offset, "row form"),
        FileFault::Trailing { offset } => fault_line(alloc, 8, offset, "trailing"),
        FileFault::TooLong { offset } => fault_line(alloc, 9, offset, "too long"),
        FileFault::HeaderForm { offset } => fault_line(alloc, 10, offset, "header form"),
        FileFault::SectionForm { offset } => fault_line(alloc, 11, offset, "section form"),
        FileFault::Memory => Err(AllocError),
    }
}

/// The line of a fault of this number.
fn fault_line(alloc: Global, number: u8, place: u64, words: &str) -> Result<String, AllocError>
    ensures { IfOk result (λ text. string_bytes text ≡
        line (codes "tree fault " ++ (decimal number ++ (codes " at byte " ++ (decimal place ++ (codes ": " ++ words.now)))))) }
{
    let mut text = String::new(alloc);
    writeln!(text, "tree fault {number} at byte {place}: {words}")?;
    Ok(text)
}
