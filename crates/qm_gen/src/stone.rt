//! Brushes of stone.

ghost use Rattle.std.specs.Prelude.{◌≡◌, IfOk};
ghost use Rattle.std.specs.Prelude.{map as mapped};
ghost use Rattle.qm_rooms.specs.Boxes.{plain_mapping, stone_face, box_brush};

use crate::stone_box::StoneBox;
use qm_lists::Items;
use qm_mapfile::{Brush, Face, Mapping, Text};
use std::alloc::{AllocError, Global};

/// The words of the mapping of a texture that is neither moved nor turned nor scaled; each is one digit.
const PLAIN: [u8; 5] = *b"00011";

/// How many faces a box has.
const SIDES: usize = 6;

fn plain_mapping(alloc: Global) -> Result<Mapping, AllocError>
    ensures { IfOk result (λ mapping. mapping ≡ plain_mapping) }
{
    let mut words = Vec::with_capacity(alloc, PLAIN.len())?;
    for digit in PLAIN {
        words.push(Text::from_slice(alloc, &[digit])?)?;
    }
    Ok(Mapping::Standard(Items::from_vec(words)))
}

/// A face of stone through three points.
#[tactic(auto, unfolding(qm_rooms::specs::Boxes::stone_face))]
fn stone_face(alloc: Global, points: [[i32; 3]; 3]) -> Result<Face, AllocError>
    ensures { IfOk result (λ face. face ≡ stone_face points) }
{
    let texture = Text::from_slice(alloc, b"stone")?;
    let mapping = plain_mapping(alloc)?;
    Ok(Face {
        points,
        texture,
        mapping,
    })
}

fn box_brush(alloc: Global, stone: &StoneBox) -> Result<Brush, AllocError>
    ensures { IfOk result (λ brush. brush ≡ box_brush stone.now) }
{
    let mut faces = Vec::with_capacity(alloc, SIDES)?;
    for points in stone.face_points() {
        faces.push(stone_face(alloc, points)?)?;
    }
    Ok(Brush {
        faces: Items::from_vec(faces),
    })
}

/// A brush for each box, in order.
pub(crate) fn box_brushes(alloc: Global, boxes: &[StoneBox]) -> Result<Vec<Brush>, AllocError>
    ensures { IfOk result (λ brushes. brushes.items ≡ mapped box_brush boxes.now) }
{
    let mut brushes = Vec::with_capacity(alloc, boxes.len())?;
    for stone in boxes {
        brushes.push(box_brush(alloc, stone)?)?;
    }
    Ok(brushes)
}
