ghost use Rattle.std.specs.Prelude.{◌≡◌, ◌<◌, [], length, All, slice_index_or, IfOk};
ghost use Rattle.qm_lists.specs.Union.{IsUnion};
ghost use Rattle.qm_contacts.specs.NumberedLeaves.{numbered_leaves};
ghost use Rattle.qm_coarse_rows.specs.LeafRow.{AreLeafRows, IsLeafRow};

use qm_bits::BitRow;
use qm_lists::Items;
use qm_portal::World;
use std::alloc::{AllocError, Global};

/// The rows of all numbered leaves of a world, by rows of its portals: for each the leaf itself, and all that the portals
/// that leave it see.
pub fn leaf_rows(alloc: Global, world: &World, rows: &[BitRow]) -> Result<Items<BitRow>, AllocError>
    requires one_each { length rows.now ≡ length world.now.portals }
    requires wide { All (λ row. length row ≡ length (numbered_leaves world.now.tree)) rows.now }
    ensures { IfOk result (λ leaf_rows. AreLeafRows world.now.portals rows.now (length (numbered_leaves world.now.tree)) leaf_rows) }
{
    let mut leaf_rows = Vec::new(alloc);
    for n in 0..world.leaves() {
        leaf_rows.push(leaf_row(alloc, world, rows, n)?)?;
    }
    Ok(Items::from_vec(leaf_rows))
}

/// The row of one leaf.
fn leaf_row(alloc: Global, world: &World, rows: &[BitRow], n: u64) -> Result<BitRow, AllocError>
    requires one_each { length rows.now ≡ length world.now.portals }
    requires wide { All (λ row. length row ≡ length (numbered_leaves world.now.tree)) rows.now }
    requires leaf { n < length (numbered_leaves world.now.tree) }
    ensures { IfOk result (λ row. IsLeafRow world.now.portals rows.now (length (numbered_leaves world.now.tree)) n row) }
{
    let mut row = BitRow::with_len(alloc, world.leaves())?;
    row.set(n);
    let leaving = world.leaving(n);
    for p in leaving {
        add_row(&mut row, rows, *p);
    }
    Ok(row)
}

/// Sets each place that the row at a place of some rows has.
fn add_row(row: &mut BitRow, rows: &[BitRow], p: u64)
    requires within { p < length rows.now }
    requires wide { All (λ other. length other ≡ length row.old) rows.now }
    ensures { IsUnion row.old (slice_index_or rows.now p []) row.new }
{
    row.or_row(&rows[p as usize]);
}
