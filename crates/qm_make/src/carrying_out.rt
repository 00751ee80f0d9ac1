//! From a map under a name to the files that are made of it.

ghost use Rattle.std.specs.Prelude.{◌≡◌, IfOk, OnErr};
ghost use Rattle.qm_shelf.specs.SeenForms.{shelf_state};
ghost use Rattle.qm_commands.specs.FileNames.{AreDifferent};
ghost use Rattle.qm_grammar.specs.Valid.{IsValidMap};
ghost use Rattle.qm_statement.specs.ComesOf.{ComesOf, IsCutShort};
ghost use Rattle.qm_statement.specs.FaultText.{fault_text};
ghost use Rattle.qm_statement.specs.declared.status.Status.TheVariants as status;
ghost use Rattle.qm_make.specs.SeenFiles.{file_names};
ghost use Rattle.qm_make.specs.StatusAndText.{due_status, due_text};
ghost use Rattle.qm_make.specs.Workers.{HasWorkers};
ghost use Rattle.qm_make.specs.inner.Ending.{IsEnd, IsMadeAndWritten};

use crate::fault_text::fault_text;
use crate::files::Files;
use crate::make::make;
use crate::outcome::Outcome;
use crate::reading::read_map;
use crate::writing::write_product;
use qm_commands::MapCommand;
use qm_crew::Gate;
use qm_grammar::MapFault;
use qm_mapfile::MapFile;
use qm_shelf::{Shelf, ShelfFault};
use std::alloc::{AllocError, Global};
use std::thread::Threads;

/// Reads the text under MAP from the shelf, up to its first certain fault, writes to it the file that the command makes of it, and a listing behind it where
/// one is asked for, and says what came of it.
pub fn carry_out_command<R: Threads + Sync, H: Shelf, G: Gate + Sync>(
    rt: &R,
    alloc: Global,
    shelf: &mut H,
    command: MapCommand,
    files: &Files<'_>,
    gate: &G,
) -> Result<Outcome, AllocError>
    requires different { AreDifferent (file_names files.now) }
    requires workers { HasWorkers command }
    ensures due { IfOk result (λ outcome. ComesOf (shelf_state H.Shelf shelf.old) (shelf_state H.Shelf shelf.new) command (file_names files.now)
        (due_status outcome) (due_text outcome)) }
    ensures memory { OnErr result (IsCutShort (shelf_state H.Shelf shelf.old) (shelf_state H.Shelf shelf.new) command (file_names files.now)) }
{
    match read_map(alloc, shelf, files.map_name) {
        Ok(Ok(map)) => make_and_write(rt, alloc, shelf, command, map, files, gate),
        Ok(Err(fault)) => map_fault(alloc, fault),
        Err(ShelfFault::Failed) => Ok(Outcome::ReadFault),
        Err(ShelfFault::Memory) => Err(AllocError),
    }
}

/// What comes of a text with a fault.
fn map_fault(alloc: Global, fault: MapFault) -> Result<Outcome, AllocError>
    ensures { IfOk result (λ outcome. (due_status outcome ≡ status.MapFault) × (due_text outcome ≡ fault_text fault)) }
{
    Ok(Outcome::MapFault(fault_text(alloc, fault)?))
}

/// Makes of a map what a command asks for, writes it, and says what came of it. The map is let go of before.
fn make_and_write<R: Threads + Sync, H: Shelf, G: Gate + Sync>(
    rt: &R,
    alloc: Global,
    shelf: &mut H,
    command: MapCommand,
    map: MapFile,
    files: &Files<'_>,
    gate: &G,
) -> Result<Outcome, AllocError>
    requires different { AreDifferent (file_names files.now) }
    requires workers { HasWorkers command }
    requires valid { IsValidMap map }
    ensures { IsMadeAndWritten (shelf_state H.Shelf shelf.old) (shelf_state H.Shelf shelf.new) command map (file_names files.now) result }
{
    let product = make(rt, alloc, command, map, gate)?;
    let written = write_product(shelf, files, &product);
    ended(written, product.outcome)
}

/// What comes of a command where writing ended so and this was due once all is written.
fn ended(written: Result<(), ShelfFault>, due: Outcome) -> Result<Outcome, AllocError>
    ensures { IsEnd written due result }
{
    match written {
        Ok(()) => Ok(due),
        Err(ShelfFault::Failed) => Ok(Outcome::WriteFault),
        Err(ShelfFault::Memory) => Err(AllocError),
    }
}
