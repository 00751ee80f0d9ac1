//! The surfaces of maps, cut into the faces of their brushes.

use qm_brush::brushes;
use qm_build::build;
use qm_faces::{FacePiece, faces};
use qm_geom::PlaneBook;
use qm_map::parse;
use qm_portal::touches;
use std::alloc::{AllocError, Global};
use std::test::Fail;
use test_texts::text_of;

/// The pieces of the surface of a text, which has to be a map.
fn pieces_of(alloc: Global, text: &str) -> Result<Vec<FacePiece>, AllocError> {
    let Ok(map) = parse(alloc, text.as_bytes()) else {
        return Err(AllocError);
    };
    let mut book = PlaneBook::new(alloc);
    let list = brushes(alloc, &map, &mut book)?;
    let tree = build(alloc, &list, &book)?;
    let contacts = touches(alloc, &tree)?;
    faces(alloc, &list, &book, &tree, &contacts)
}

/// The leaf, brush and face of a piece.
type Place = (u64, u64, u32);

/// Whether pieces have these places, and four corners each.
fn are(pieces: &[FacePiece], places: &[Place]) -> bool {
    let mut right = pieces.len() == places.len();
    for i in 0..pieces.len().min(places.len()) {
        let piece = &pieces[i];
        let (leaf, brush, face) = places[i];
        right &= piece.leaf == leaf && piece.brush == brush && piece.face == face;
        right &= piece.pane.winding.len() == 4;
    }
    right
}

#[test]
fn surfaces_of_cubes(rt: HostRuntime) -> Result<(), Fail> {
    let cube = text_of(rt.alloc(), &[([0, 0, 0], [64, 64, 64])])?;
    let sides = [
        (6, 0, 0),
        (0, 0, 1),
        (5, 0, 2),
        (1, 0, 3),
        (4, 0, 4),
        (2, 0, 5),
    ];
    let stack = text_of(
        rt.alloc(),
        &[([0, 0, 0], [64, 64, 64]), ([0, 0, 64], [64, 64, 128])],
    )?;
    let right = are(&pieces_of(rt.alloc(), cube.as_str())?, &sides)
        && pieces_of(rt.alloc(), stack.as_str())?.len() == 10;
    assert!(rt; right);
    Ok(())
}
