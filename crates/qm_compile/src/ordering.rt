//! Carrying out what words ask for.

ghost use Rattle.std.specs.Prelude.{◌≤◌};
ghost use Rattle.qm_shelf.specs.SeenForms.{shelf_state};
ghost use Rattle.qm_surroundings.specs.ShelfState.{ShelfState};
ghost use Rattle.qm_commands.specs.Order.{of_map, of_rooms};
ghost use Rattle.qm_words.specs.SeenWords.{order_of};
ghost use Rattle.qm_make.specs.SeenFiles.{file_names};
ghost use Rattle.qm_compile.specs.inner.CarriedOut.{IsCarriedOut, IsOfWords};

use crate::generating::sum_up_rooms;
use crate::inspecting::inspect;
use crate::report::Report;
use crate::upgrading::upgrade_tree;
use qm_commands::{MapCommand, Options};
use qm_crew::Gate;
use qm_make::{Files, carry_out_command};
use qm_shelf::Shelf;
use qm_words::Order;
use std::alloc::{AllocError, Global};
use std::thread::Threads;

/// Carries out what words ask for on the shelf, and says what came of it.
pub fn carry_out_order<R: Threads + Sync, H: Shelf, G: Gate + Sync>(
    rt: &R,
    alloc: Global,
    shelf: &mut H,
    order: Order<'_>,
    gate: &G,
) -> Result<Report, AllocError>
    requires of_words { IsOfWords (order_of order) }
    ensures { IsCarriedOut (shelf_state H.Shelf shelf.old) (shelf_state H.Shelf shelf.new) (order_of order.entry) result }
{
    match order {
        Order::Compile {
            map,
            out,
            prt,
            threads,
            fast,
            hulls,
            models,
            faces,
        } => {
            let command = MapCommand::Compile {
                options: Options {
                    threads,
                    fast,
                    hulls,
                    models,
                    faces,
                },
                listed: prt.is_some(),
            };
            let files = Files {
                map_name: map,
                out_name: out,
                listing_name: prt,
            };
            carry_out_on_files(rt, alloc, shelf, command, &files, gate)
        }
        Order::Format { map, out } => {
            let files = Files {
                map_name: map,
                out_name: out,
                listing_name: None,
            };
            carry_out_on_files(rt, alloc, shelf, MapCommand::Format, &files, gate)
        }
        Order::Inspect { tree, queries } => inspect(alloc, shelf, tree, &queries),
        Order::Demo { rooms, number } => sum_up(rt, alloc, rooms, number, gate),
        Order::Upgrade { tree, out } => upgrade_tree(alloc, shelf, tree, out),
    }
}

/// Carries out a command that makes files of a map.
fn carry_out_on_files<R: Threads + Sync, H: Shelf, G: Gate + Sync>(
    rt: &R,
    alloc: Global,
    shelf: &mut H,
    command: MapCommand,
    files: &Files<'_>,
    gate: &G,
) -> Result<Report, AllocError>
    requires of_words { IsOfWords (of_map command (file_names files.now)) }
    ensures { IsCarriedOut (shelf_state H.Shelf shelf.old) (shelf_state H.Shelf shelf.new) (of_map command (file_names files.now)) result }
{
    match carry_out_command(rt, alloc, shelf, command, files, gate) {
        Ok(outcome) => Ok(Report::OfFiles(outcome)),
        Err(_) => Err(AllocError),
    }
}

/// Sums up a generated map of so many rooms. No shelf is touched.
fn sum_up<R: Threads + Sync, G: Gate + Sync>(
    rt: &R,
    alloc: Global,
    rooms: u32,
    number: u64,
    gate: &G,
) -> Result<Report, AllocError>
    requires some { 1 ≤ rooms }
    requires few { rooms ≤ 64 }
    ensures { (shelf : ShelfState) → IsCarriedOut shelf shelf (of_rooms rooms number) result }
{
    match sum_up_rooms(rt, alloc, rooms, number, gate) {
        Ok(text) => Ok(Report::SummedUp(text)),
        Err(_) => Err(AllocError),
    }
}
