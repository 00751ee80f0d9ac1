//! The leaves that straight lines show from each portal of three rooms round a corner.

ghost use Rattle.std.specs.Prelude.{◌<◌, length};

use qm_base::base;
use qm_bits::BitRow;
use qm_lines::{LineStore, show_by_lines};
use qm_portal::World;
use qm_sight::Rows;
use std::alloc::{AllocError, Global};
use std::test::Fail;
use test_texts::{CORNER_ROOMS, text_of};
use test_worlds::world_of;

/// What open chains show of the leaves, seen from each of them, worked out by hand; the first leaf in the lowest bit.
static SHOWN: [u64; 5] = [0x0F, 0x0F, 0x1F, 0x1F, 0x1C];

/// How many leaves lines show from all portals: two dead ends, which are entered at once, are not aimed at.
const BY_LINES: u64 = 14;

/// The leaves that lines show from a portal, over coarse rows.
fn row_of(alloc: Global, world: &World, portal: u64) -> Result<BitRow, AllocError>
    requires { portal < length world.now.portals }
{
    let coarse = base(alloc, world)?;
    let mut rows = Rows::over(world, coarse);
    let mut row = BitRow::with_len(alloc, world.leaves())?;
    let mut lines = LineStore::new(alloc);
    show_by_lines(alloc, world, &mut rows, portal, &mut lines, &mut row)?;
    Ok(row)
}

/// Whether a row has only places that are set in a number.
fn lies_within(row: &BitRow, places: u64) -> bool {
    let mut within = true;
    for k in 0..row.len() {
        within &= !row.get(k) || (k < 64 && (places >> (k % 64)) & 1 == 1);
    }
    within
}

#[test]
fn lines_show_what_is_seen(rt: HostRuntime) -> Result<(), Fail> {
    let alloc = rt.alloc();
    let text = text_of(alloc, &CORNER_ROOMS)?;
    let world = world_of(alloc, text.as_str(), [-64, 0, 24])?;
    let mut right = true;
    let mut shown: u64 = 0;
    for portal in 0..world.portals() {
        let row = row_of(alloc, &world, portal)?;
        let from = world.from(portal) as usize;
        right &= from < SHOWN.len() && lies_within(&row, SHOWN[from % 5]);
        shown = row.count().saturating_add(shown);
    }
    assert!(rt; right && shown == BY_LINES);
    Ok(())
}
