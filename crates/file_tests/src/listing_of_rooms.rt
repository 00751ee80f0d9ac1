//! Two rooms with a doorway, and their listing, worked out by hand.

use qm_lists::Items;
use qm_prt::{Coordinate, Listing, PrtPortal, print, read};
use std::alloc::{AllocError, Global};
use std::test::Fail;
use test_texts::{TWO_ROOMS, text_of};
use test_worlds::world_of;

/// The listing: the doorway is leaf 1, between the rooms 0 and 2.
pub static LISTING: [u8; 147] =
    *b"PRT1\n3\n2\n4 1 2 (-3488 -64 0 ) (-3488 -64 64 ) (-3488 -32 64 ) (-3488 -32 0 ) \n4 0 1 (-3472 -64 0 ) (-3472 -64 64 ) (-3472 -32 64 ) (-3472 -32 0 ) \n";

/// Its portals: both leaves, and the corners in whole units.
static PORTALS: [(u64, u64, [[i64; 3]; 4]); 2] = [
    (
        1,
        2,
        [
            [-3488, -64, 0],
            [-3488, -64, 64],
            [-3488, -32, 64],
            [-3488, -32, 0],
        ],
    ),
    (
        0,
        1,
        [
            [-3472, -64, 0],
            [-3472, -64, 64],
            [-3472, -32, 64],
            [-3472, -32, 0],
        ],
    ),
];

fn is_whole(coordinate: &Coordinate, units: i64) -> bool {
    coordinate.whole && coordinate.millionths == units.saturating_mul(1_000_000)
}

fn is_corner(corner: &[Coordinate; 3], units: &[i64; 3]) -> bool {
    corner
        .iter()
        .zip(units)
        .all(|(coordinate, one)| is_whole(coordinate, *one))
}

fn is_portal(portal: &PrtPortal, expected: &(u64, u64, [[i64; 3]; 4])) -> bool {
    let (leaf0, leaf1, corners) = expected;
    portal.leaf0 == *leaf0
        && portal.leaf1 == *leaf1
        && portal.corners.len() == 4
        && portal
            .corners
            .as_slice()
            .iter()
            .zip(corners)
            .all(|(corner, units)| is_corner(corner, units))
}

fn is_listing(listing: &Listing) -> bool {
    listing.leaves == 3
        && listing.portals.len() == 2
        && listing
            .portals
            .as_slice()
            .iter()
            .zip(&PORTALS)
            .all(|(portal, expected)| is_portal(portal, expected))
}

/// Whether the listing is read, and printed for the rooms, also behind other bytes.
fn holds(alloc: Global) -> Result<bool, AllocError> {
    let text = text_of(alloc, &TWO_ROOMS)?;
    let world = world_of(alloc, text.as_str(), [-3536, 0, 24])?;
    let mut alone = Vec::new(alloc);
    print(alloc, &world, &mut alone)?;
    let mut behind = Vec::from_slice(alloc, b"12")?;
    print(alloc, &world, &mut behind)?;
    let Ok(listing) = read(alloc, &LISTING) else {
        return Err(AllocError);
    };
    Ok(
        alone.as_slice() == LISTING.as_slice()
            && behind.starts_with(b"12")
            && behind.ends_with(&LISTING)
            && behind.len() == 149
            && is_listing(&listing),
    )
}

#[test]
fn rooms_have_their_listing(rt: HostRuntime) -> Result<(), Fail> {
    assert!(rt; holds(rt.alloc())?);
    Ok(())
}
