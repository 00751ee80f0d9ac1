//! Which portals may follow which lanes of a block of 64.

ghost use Rattle.std.specs.Prelude.{◌≡◌, ◌<◌, ◌*◌, ◌↔◌, ℕ, List, true, length, All, Contains, OnOk};
ghost use Rattle.qm_contacts.specs.Portals.{Portal};
ghost use Rattle.qm_lists.specs.Word.{has_bit};
ghost use Rattle.qm_base.specs.inner.Tables.{IsTable, AreKinds};
ghost use Rattle.qm_base.specs.inner.Runs.{AreRuns};
ghost use Rattle.qm_base.specs.inner.Ways.{AreWays, IsWay, IsAheadOf, block_of};

use crate::runs::{Run, runs};
use crate::table::Table;
use std::alloc::{AllocError, Global};

/// Writes for each portal which lanes of a block it may follow, lane j as bit j.
pub(crate) fn fill(
    alloc: Global,
    table: &Table,
    block: usize,
    ways: &mut [u64],
) -> Result<(), AllocError>
    requires kinds { AreKinds table.now.lanes.items table.now.kinds.items table.now.beside.items }
    requires block { 64 * block < length table.now.lanes.items }
    requires one_each { length ways.old ≡ length table.now.lanes.items }
    requires portals { All (λ lane. lane.portal < length ways.old) table.now.lanes.items }
    ensures { OnOk result ((portals : List Portal) →
        IsTable portals table.now.lanes.items table.now.kinds.items table.now.beside.items → AreWays portals table.now.lanes.items block ways.new) }
{
    let first = 64 * block;
    let end = (table.kinds.len() - first).min(64) + first;
    let runs = runs(alloc, &table.kinds[first..end])?;
    for k in 0..table.lanes.len() {
        ways[table.lanes[k].portal as usize] = way(table, block, &runs, k);
    }
    Ok(())
}

/// The lanes of a block that the portal of a lane may follow.
fn way(table: &Table, block: usize, runs: &[Run], k: usize) -> u64
    requires kinds { AreKinds table.now.lanes.items table.now.kinds.items table.now.beside.items }
    requires block { 64 * block < length table.now.lanes.items }
    requires runs { AreRuns (block_of block table.now.kinds.items) runs.now }
    requires lane { k < length table.now.lanes.items }
    ensures { IsWay table.now.kinds.items table.now.beside.items block k result }
{
    let back = table.back(&table.kinds[k]).word(block as u64);
    if back == 0 {
        return 0;
    }
    back & lanes_before(table, runs, k)
}

/// The lanes of a block whose turned planes have a corner of the lane at a place in front.
fn lanes_before(table: &Table, runs: &[Run], k: usize) -> u64
    requires kinds { (run : Run) → Contains runs.now run → run.kind.class < length table.now.beside.items }
    requires wide { AreKinds table.now.lanes.items table.now.kinds.items table.now.beside.items }
    requires lane { k < length table.now.lanes.items }
    ensures { (j : ℕ) → (has_bit result j ≡ true) ↔ IsAheadOf table.now.beside.items runs.now k j }
{
    let mut lanes = 0;
    for run in runs {
        if table.ahead(&run.kind).get(k as u64) {
            lanes |= run.lanes;
        }
    }
    lanes
}
