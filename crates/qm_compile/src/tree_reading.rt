//! From a name to the tree file under it.

ghost use Rattle.qm_shelf.specs.SeenForms.{shelf_state};
ghost use Rattle.qm_compile.specs.inner.TreeRead.{IsNoTreeOf, IsReadOfBytes, IsReportOf, IsTreeRead};

use crate::report::Report;
use crate::tree_fault_line::tree_fault_line;
use qm_file::{FileFault, TreeFile, decode};
use qm_shelf::{Shelf, ShelfFault, read_whole};
use std::alloc::{AllocError, Global};

/// The most bytes of a tree file that is read.
const FILE_LIMIT: usize = 1 << 30;

/// Why no tree file was read under a name.
#[derive(Drop)]
pub enum NoTree {
    /// The bytes are none; the text is the line that says why.
    Fault(String),
    /// They could not be read.
    Unread,
    Memory,
}

/// Reads the tree file under a name.
pub fn read_tree<H: Shelf>(
    alloc: Global,
    shelf: &mut H,
    tree_name: &str,
) -> Result<TreeFile, NoTree>
    ensures { IsTreeRead (shelf_state H.Shelf shelf.old) (shelf_state H.Shelf shelf.new) tree_name.now result }
{
    match read_whole(alloc, shelf, tree_name, FILE_LIMIT) {
        Ok(bytes) => read_bytes(alloc, &bytes),
        Err(ShelfFault::Failed) => Err(NoTree::Unread),
        Err(ShelfFault::Memory) => Err(NoTree::Memory),
    }
}

/// The tree file that bytes are.
fn read_bytes(alloc: Global, bytes: &[u8]) -> Result<TreeFile, NoTree>
    ensures { IsReadOfBytes bytes.now result }
{
    match decode(alloc, bytes) {
        Ok(file) => Ok(file),
        Err(fault) => Err(no_tree(alloc, fault)),
    }
}

/// Bytes that are no tree file, of which this is the fault.
fn no_tree(alloc: Global, fault: FileFault) -> NoTree
    ensures { IsNoTreeOf fault result }
{
    match tree_fault_line(alloc, fault) {
        Ok(line) => NoTree::Fault(line),
        Err(_) => NoTree::Memory,
    }
}

/// What is reported where no tree file was read.
pub fn report_of(none: NoTree) -> Result<Report, AllocError>
    ensures { IsReportOf none result }
{
    match none {
        NoTree::Fault(line) => Ok(Report::TreeFault(line)),
        NoTree::Unread => Ok(Report::ReadFault),
        NoTree::Memory => Err(AllocError),
    }
}
