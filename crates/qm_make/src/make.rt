//! From a map to the file that a command makes of it.

ghost use Rattle.std.specs.Prelude.{IfOk};
ghost use Rattle.qm_grammar.specs.Valid.{IsValidMap};
ghost use Rattle.qm_statement.specs.Output.{IsOutputOf};
ghost use Rattle.qm_make.specs.Workers.{HasWorkers};
ghost use Rattle.qm_make.specs.inner.Made.{output_of};

use crate::format::format;
use crate::made::Product;
use crate::putting_out::compile_to_file;
use qm_commands::MapCommand;
use qm_crew::Gate;
use qm_mapfile::MapFile;
use std::alloc::{AllocError, Global};
use std::thread::Threads;

/// Makes of a map what a command asks for. The map is let go of.
#[tactic(auto, unfolding(qm_statement::specs::Output::IsOutputOf))]
pub fn make<R: Threads + Sync, G: Gate + Sync>(
    rt: &R,
    alloc: Global,
    command: MapCommand,
    map: MapFile,
    gate: &G,
) -> Result<Product, AllocError>
    requires valid { IsValidMap map }
    requires workers { HasWorkers command }
    ensures { IfOk result (λ product. IsOutputOf command map (output_of product)) }
{
    match command {
        MapCommand::Compile { options, listed } => {
            compile_to_file(rt, alloc, &map, options, listed, gate)
        }
        MapCommand::Format => format(alloc, &map),
    }
}
