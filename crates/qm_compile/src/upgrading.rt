//! From a tree file under a name to the same file in version 2 under another.

ghost use Rattle.qm_shelf.specs.SeenForms.{shelf_state};
ghost use Rattle.qm_commands.specs.Order.{of_upgrade};
ghost use Rattle.qm_formats.specs.TreeFile.{IsValidFile};
ghost use Rattle.qm_make.specs.declared.outcome.Outcome.TheVariants.{Done};
ghost use Rattle.qm_compile.specs.declared.report.Report.TheVariants.{OfFiles};
ghost use Rattle.qm_compile.specs.inner.CarriedOut.{IsCarriedOut};
ghost use Rattle.qm_compile.specs.inner.UpgradeEnds.{IsEnd, IsUpgradeWritten};

use crate::report::Report;
use crate::tree_reading::{read_tree, report_of};
use qm_file::TreeFile;
use qm_make::{Outcome, make_upgrade};
use qm_shelf::{Shelf, ShelfFault, write_whole};
use std::alloc::{AllocError, Global};

/// Reads the tree file under a name, and writes it in version 2 under another.
pub fn upgrade_tree<H: Shelf>(
    alloc: Global,
    shelf: &mut H,
    tree_name: &str,
    out_name: &str,
) -> Result<Report, AllocError>
    ensures { IsCarriedOut (shelf_state H.Shelf shelf.old) (shelf_state H.Shelf shelf.new) (of_upgrade tree_name.now out_name.now) result }
{
    match read_tree(alloc, shelf, tree_name) {
        Ok(file) => write_upgrade(alloc, shelf, file, out_name),
        Err(none) => report_of(none),
    }
}

/// Writes a tree file in version 2 under a name. The file is let go of before.
fn write_upgrade<H: Shelf>(
    alloc: Global,
    shelf: &mut H,
    file: TreeFile,
    out_name: &str,
) -> Result<Report, AllocError>
    requires { IsValidFile file }
    ensures { IsUpgradeWritten (shelf_state H.Shelf shelf.old) (shelf_state H.Shelf shelf.new) file out_name.now result }
{
    let upgrade = make_upgrade(alloc, file)?;
    let written = write_whole(shelf, out_name, &upgrade.bytes);
    ended(written, upgrade.line)
}

/// What is reported where writing ended so: this line, once all is written.
fn ended(written: Result<(), ShelfFault>, line: String) -> Result<Report, AllocError>
    ensures { IsEnd written (OfFiles (Done line)) result }
{
    match written {
        Ok(()) => Ok(Report::OfFiles(Outcome::Done(line))),
        Err(ShelfFault::Failed) => Ok(Report::OfFiles(Outcome::WriteFault)),
        Err(ShelfFault::Memory) => Err(AllocError),
    }
}
