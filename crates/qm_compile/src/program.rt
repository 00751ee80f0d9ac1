//! All that the program does.

ghost use Rattle.qm_shelf.specs.SeenForms.{surroundings, shelf_state, sink_state};
ghost use Rattle.qm_words.specs.SeenWords.{bytes_of_words};
ghost use Rattle.qm_statement.specs.Complete.{IsComplete};
ghost use Rattle.qm_statement.specs.OwnFiles.{ChangesOwnFilesAlone};
ghost use Rattle.qm_statement.specs.Run.{Answers};
ghost use Rattle.qm_statement.specs.TornFiles.{NoneIsTorn};
ghost use Rattle.qm_compile.specs.inner.CarriedOut.{AreCarriedOut};
ghost use Rattle.qm_compile.specs.inner.Printed.{EndsWith};

use crate::ordering::carry_out_order;
use crate::report::Report;
use qm_crew::Gate;
use qm_shelf::{Shelf, Sink, SinkFault};
use qm_statement::Status;
use qm_words::{WordsFault, read};
use std::alloc::{AllocError, Global};
use std::thread::Threads;

/// Carries out the command that the words are, on files of the shelf, and prints to the sink what came of it. Where several
/// workers look for rows, they pass by the gate.
pub fn run<R: Threads + Sync, H: Shelf, S: Sink, G: Gate + Sync>(
    rt: &R,
    alloc: Global,
    words: &[&str],
    shelf: &mut H,
    out: &mut S,
    gate: &G,
) -> Status
    ensures answers { Answers (bytes_of_words words.now) (surroundings H.Shelf S.Sink shelf.old out.old) (surroundings H.Shelf S.Sink shelf.new out.new) result }
    ensures complete { IsComplete (bytes_of_words words.now) (surroundings H.Shelf S.Sink shelf.old out.old) (surroundings H.Shelf S.Sink shelf.new out.new) result }
    ensures own_files_alone { ChangesOwnFilesAlone (bytes_of_words words.now) (shelf_state H.Shelf shelf.old) (shelf_state H.Shelf shelf.new) result }
    ensures none_is_torn { NoneIsTorn (bytes_of_words words.now) (shelf_state H.Shelf shelf.old) (shelf_state H.Shelf shelf.new) }
{
    match carry_out(rt, alloc, words, shelf, gate) {
        Ok(report) => print(out, &report),
        Err(_) => Status::Memory,
    }
}

/// Prints what came of the words, and says with which status the run ends.
fn print<S: Sink>(out: &mut S, report: &Report) -> Status
    ensures { EndsWith (sink_state S.Sink out.old) (sink_state S.Sink out.new) report.now result }
{
    match out.write(report.text()) {
        Ok(()) => report.status(),
        Err(SinkFault::Failed) => Status::WriteFault,
        Err(SinkFault::Memory) => Status::Memory,
    }
}

/// Carries out the command that the words are on the shelf, and says what came of it.
fn carry_out<R: Threads + Sync, H: Shelf, G: Gate + Sync>(
    rt: &R,
    alloc: Global,
    words: &[&str],
    shelf: &mut H,
    gate: &G,
) -> Result<Report, AllocError>
    ensures { AreCarriedOut (bytes_of_words words.now) (shelf_state H.Shelf shelf.old) (shelf_state H.Shelf shelf.new) result }
{
    match read(alloc, words) {
        Ok(order) => carry_out_order(rt, alloc, shelf, order, gate),
        Err(WordsFault::Usage) => Ok(Report::Usage),
        Err(WordsFault::Memory) => Err(AllocError),
    }
}
