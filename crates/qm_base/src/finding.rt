ghost use Rattle.std.specs.Prelude.{◌≡◌, ◌<◌, ◌*◌, length, All, IfOk, OnOk};
ghost use Rattle.qm_contacts.specs.NumberedLeaves.{numbered_leaves};
ghost use Rattle.qm_coarse_rows.specs.CoarseRow.{AreCoarseRows};
ghost use Rattle.qm_segments.specs.Sight.{AreSoundRows};
ghost use Rattle.qm_base.specs.inner.Blocks.{IsLaneWorld, IsBlockDone};

use crate::column::column;
use crate::entering::entered;
use crate::sweeping::flooded;
use crate::table::Table;
use crate::ways::fill;
use qm_bits::BitRow;
use qm_lists::Items;
use qm_portal::World;
use std::alloc::{AllocError, Global};

/// A world, with the table of its lanes and the leaf that each of its portals enters.
#[derive(Drop)]
struct LaneWorld<'a> {
    world: &'a World,
    table: &'a Table,
    entered: &'a [usize],
}

/// The coarse rows of all portals of a world, in their order. Each row has all that is in sight of its portal.
pub fn base(alloc: Global, world: &World) -> Result<Items<BitRow>, AllocError>
    ensures rows { IfOk result (λ rows. AreCoarseRows world.now.portals (length (numbered_leaves world.now.tree)) rows) }
    ensures one_each { IfOk result (λ rows. length rows ≡ length world.now.portals) }
    ensures wide { IfOk result (λ rows. All (λ row. length row ≡ length (numbered_leaves world.now.tree)) rows) }
    ensures sound { IfOk result (λ rows. AreSoundRows world.now.tree world.now.portals rows) }
{
    world.own_portals();
    let table = Table::of(alloc, world)?;
    let entered = entered(alloc, world)?;
    let lane_world = LaneWorld {
        world,
        table: &table,
        entered: &entered,
    };
    let count = table.lanes.len();
    let mut ways = vec![in alloc; 0; count]?;
    let mut rows = empty_rows(alloc, count)?;
    for block in 0..count.div_ceil(64) {
        add_block(alloc, &lane_world, block, &mut ways, &mut rows)?;
    }
    Ok(Items::from_vec(rows))
}

/// So many rows without places, which take no memory.
fn empty_rows(alloc: Global, count: usize) -> Result<Vec<BitRow>, AllocError>
    ensures { IfOk result (λ rows. length rows.items ≡ count) }
{
    let mut rows = Vec::new(alloc);
    for _k in 0..count {
        rows.push(BitRow::with_len(alloc, 0)?)?;
    }
    Ok(rows)
}

/// Writes the rows of the portals of a block of 64 lanes.
fn add_block(
    alloc: Global,
    lane_world: &LaneWorld<'_>,
    block: usize,
    ways: &mut [u64],
    rows: &mut [BitRow],
) -> Result<(), AllocError>
    requires lane_world { IsLaneWorld lane_world.now }
    requires block { 64 * block < length lane_world.now.world.now.portals }
    requires ways { length ways.old ≡ length lane_world.now.world.now.portals }
    requires rows { length rows.old ≡ length lane_world.now.world.now.portals }
    ensures { OnOk result (IsBlockDone lane_world.now.world.now lane_world.now.table.now.lanes.items block rows.old rows.new) }
{
    let table = lane_world.table;
    fill(alloc, table, block, ways)?;
    let first = 64 * block;
    let end = (table.lanes.len() - first).min(64) + first;
    let lanes = &table.lanes[first..end];
    let seen = flooded(alloc, lane_world.world, lane_world.entered, ways, lanes)?;
    let all = BitRow::full(alloc, seen.len() as u64)?;
    for j in 0..lanes.len() {
        rows[lanes[j].portal as usize] = column(alloc, &seen, &all, j)?;
    }
    Ok(())
}
