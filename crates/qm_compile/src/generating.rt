//! Compiling a generated map.

ghost use Rattle.std.specs.Prelude.{◌≤◌, IfOk, string_bytes};
ghost use Rattle.qm_grammar.specs.Valid.{IsValidMap};
ghost use Rattle.qm_statement.specs.DemoComesOf.{IsSummaryOfRooms};
ghost use Rattle.qm_compile.specs.inner.MapSummary.{IsSummaryOfMap, LeaksNowhere};

use qm_commands::Options;
use qm_compiler::{Compiled, compile};
use qm_crew::Gate;
use qm_gen::{GenFault, rooms};
use qm_make::summary_text;
use qm_mapfile::MapFile;
use std::alloc::{AllocError, Global};
use std::thread::Threads;

/// The summary of the map of so many rooms, compiled with one worker.
pub fn sum_up_rooms<R: Threads + Sync, G: Gate + Sync>(
    rt: &R,
    alloc: Global,
    count: u32,
    number: u64,
    gate: &G,
) -> Result<String, AllocError>
    requires some { 1 ≤ count }
    requires few { count ≤ 64 }
    ensures { IfOk result (λ text. IsSummaryOfRooms count number (string_bytes text)) }
{
    match rooms(alloc, count, number) {
        Ok(map) => sum_up_map(rt, alloc, &map, gate),
        Err(GenFault::SizeRange) => unreachable!(),
        Err(GenFault::Memory) => Err(AllocError),
    }
}

/// The summary of a map in which no entity leaks, compiled with one worker.
fn sum_up_map<R: Threads + Sync, G: Gate + Sync>(
    rt: &R,
    alloc: Global,
    map: &MapFile,
    gate: &G,
) -> Result<String, AllocError>
    requires valid { IsValidMap map.now }
    requires leaks_nowhere { LeaksNowhere map.now }
    ensures { IfOk result (λ text. IsSummaryOfMap map.now (string_bytes text)) }
{
    let options = Options {
        threads: 1,
        fast: false,
        hulls: false,
        models: false,
        faces: false,
    };
    match compile(rt, alloc, map, &options, gate)? {
        Compiled::Done { summary, .. } => summary_text(alloc, &summary),
        Compiled::Leak { .. } => unreachable!(),
    }
}
