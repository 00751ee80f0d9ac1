//! From a tree file under a name to what it answers.

ghost use Rattle.std.specs.Prelude.{◌≡◌, IfOk};
ghost use Rattle.qm_shelf.specs.SeenForms.{shelf_state};
ghost use Rattle.qm_commands.specs.Order.{of_tree};
ghost use Rattle.qm_formats.specs.TreeFile.{IsValidFile};
ghost use Rattle.qm_statement.specs.declared.status.Status.TheVariants.{QueryRefused};
ghost use Rattle.qm_statement.specs.RefusalText.{refusal_text};
ghost use Rattle.qm_compile.specs.inner.CarriedOut.{IsCarriedOut};
ghost use Rattle.qm_compile.specs.inner.FileReport.{IsFileReport};
ghost use Rattle.qm_compile.specs.inner.Reported.{reported_status, reported_text};

use crate::refusal_line::refusal_line;
use crate::report::Report;
use crate::tree_reading::{read_tree, report_of};
use qm_answers::QueryFault;
use qm_commands::Query;
use qm_file::TreeFile;
use qm_inspect::{Told, tell};
use qm_shelf::Shelf;
use std::alloc::{AllocError, Global};

/// Reads the tree file under a name, and asks it all queries.
pub fn inspect<H: Shelf>(
    alloc: Global,
    shelf: &mut H,
    tree_name: &str,
    queries: &[Query],
) -> Result<Report, AllocError>
    ensures { IsCarriedOut (shelf_state H.Shelf shelf.old) (shelf_state H.Shelf shelf.new) (of_tree tree_name.now queries.now) result }
{
    match read_tree(alloc, shelf, tree_name) {
        Ok(file) => ask(alloc, &file, queries),
        Err(none) => report_of(none),
    }
}

/// Asks a tree file all queries.
fn ask(alloc: Global, file: &TreeFile, queries: &[Query]) -> Result<Report, AllocError>
    requires { IsValidFile file.now }
    ensures { IfOk result (λ report. IsFileReport file.now queries.now (reported_status report) (reported_text report)) }
{
    match tell(alloc, file, queries) {
        Ok(Told::Lines(lines)) => Ok(Report::Answered(lines)),
        Ok(Told::Refused { number, fault }) => refused(alloc, number, fault),
        Err(_) => Err(AllocError),
    }
}

/// What is reported of a query that is refused.
fn refused(alloc: Global, number: u64, fault: QueryFault) -> Result<Report, AllocError>
    ensures { IfOk result (λ report. (reported_status report ≡ QueryRefused) × (reported_text report ≡ refusal_text number fault)) }
{
    let line = refusal_line(alloc, number, fault)?;
    Ok(Report::QueryRefused(line))
}
