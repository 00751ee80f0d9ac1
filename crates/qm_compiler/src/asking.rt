//! What is made for a world as options ask for it.

ghost use Rattle.std.specs.Prelude.{◌≡◌, ◌≤◌, Ok, IfOk};
ghost use Rattle.qm_statement.specs.Rows.{AreRowsAsAsked};

use crate::rows::rows_of;
use qm_bits::BitRow;
use qm_commands::Options;
use qm_crew::Gate;
use qm_file::Section;
use qm_lists::Items;
use qm_portal::World;
use std::alloc::{AllocError, Global};
use std::thread::Threads;

/// Rows and sections for a file.
#[derive(Drop)]
pub struct Asked {
    pub rows: Items<BitRow>,
    pub sections: Items<Section>,
}

/// The rows that the options ask for, beside sections that were made before, if there was memory for them: sections take little
/// memory, and rows may take long.
pub fn make_asked<R: Threads + Sync, G: Gate + Sync>(
    rt: &R,
    alloc: Global,
    world: &World,
    sections: Result<Items<Section>, AllocError>,
    options: &Options,
    gate: &G,
) -> Result<Asked, AllocError>
    requires some { 1 ≤ options.now.threads }
    requires not_too_many { options.now.threads ≤ 64 }
    ensures rows { IfOk result (λ asked. AreRowsAsAsked options.now.fast options.now.threads world.now asked.rows) }
    ensures sections { IfOk result (λ asked. sections ≡ Ok asked.sections) }
{
    let sections = sections?;
    let rows = rows_of(rt, alloc, world, options.fast, options.threads, gate)?;
    Ok(Asked { rows, sections })
}
