//! The rows that are written with a tree.

ghost use Rattle.std.specs.Prelude.{◌≤◌, IfOk};
ghost use Rattle.qm_statement.specs.Rows.{AreRowsAsAsked};

use qm_base::base;
use qm_bits::BitRow;
use qm_crew::{Gate, crew};
use qm_lists::Items;
use qm_portal::World;
use qm_rows::leaf_rows;
use std::alloc::{AllocError, Global};
use std::thread::Threads;

/// The rows of the numbered leaves of a world, over coarse rows of its portals, or over those that workers find in turns. The
/// rows of portals are let go of.
pub fn rows_of<R: Threads + Sync, G: Gate + Sync>(
    rt: &R,
    alloc: Global,
    world: &World,
    fast: bool,
    threads: u8,
    gate: &G,
) -> Result<Items<BitRow>, AllocError>
    requires some { 1 ≤ threads }
    requires not_too_many { threads ≤ 64 }
    ensures { IfOk result (λ rows. AreRowsAsAsked fast threads world.now rows) }
{
    let coarse = base(alloc, world)?;
    if fast {
        return leaf_rows(alloc, world, coarse.as_slice());
    }
    let crewed = crew(rt, alloc, world, coarse, threads, gate)?;
    leaf_rows(alloc, world, crewed.rows.as_slice())
}
