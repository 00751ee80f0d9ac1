//! How much room the lines of answers take. No clause rests on it: where it were too little, the text would be moved.

ghost use Rattle.qm_partition.specs.Counting.{leaves_of};
ghost use Rattle.qm_formats.specs.TreeFile.{IsValidFile};
ghost use Rattle.qm_inspect.specs.inner.BlockCounts.{AreBlockCounts};
ghost use Rattle.qm_answers.specs.DecodedSections.{AscendByEntity};
ghost use Rattle.qm_inspect.specs.Parts.{ArePartsOf, IfKnown};

use crate::asking::answer;
use crate::models::model_of_entity;
use crate::parts::Parts;
use itoa::Buffer;
use qm_answers::{Answer, DecodedSection};
use qm_bits::BitRow;
use qm_commands::Query;
use qm_face_file::FaceRecord;
use qm_file::TreeFile;
use qm_lists::Items;
use qm_model_file::BrushModel;

/// The most bytes of a line in which there is no list: the one of counts has four numbers of up to 20 digits.
const SHORT_LINE: usize = 122;

/// The most bytes of the kind of a section and the space before it.
const KIND: usize = 11;

/// The most bytes of the number of a leaf and the space before it.
const LEAF: usize = 21;

/// The most bytes of a corner inside the world's cube and the space before it.
const CORNER: usize = 45;

/// Room for the lines of the answers to all queries.
pub(crate) fn room_for_lines(
    file: &TreeFile,
    parts: &Parts,
    counts: &[u64],
    queries: &[Query],
) -> usize
    requires valid { IsValidFile file.now }
    requires parts { ArePartsOf file.now parts.now }
    requires counts { AreBlockCounts (leaves_of file.now.tree.shape) counts.now }
{
    let mut room: usize = 0;
    for ask in queries {
        if let Ok(answer) = answer(file, parts, counts, ask) {
            room = room.saturating_add(room_for_line(file, parts, &answer));
        }
    }
    room
}

/// Room for the line of an answer.
fn room_for_line(file: &TreeFile, parts: &Parts, answer: &Answer) -> usize
    requires { ArePartsOf file.now parts.now }
{
    let list = match *answer {
        Answer::Model(entity) => room_for_leaves(&parts.models, entity),
        Answer::Face(n) => room_for_corners(&parts.faces, n),
        Answer::Row(n) => room_for_row(file, n),
        Answer::Parts => file.sections.as_slice().len().saturating_mul(KIND),
        _ => 0,
    };
    list.saturating_add(SHORT_LINE)
}

/// Room for the leaves that the model of an entity touches.
fn room_for_leaves(section: &DecodedSection<Items<BrushModel>>, entity: u64) -> usize
    requires { IfKnown section.now (AscendByEntity 0) }
{
    match section {
        DecodedSection::Known(models) => match model_of_entity(models.as_slice(), entity) {
            Some(model) => model.leaves.len().saturating_mul(LEAF),
            None => 0,
        },
        _ => 0,
    }
}

/// Room for the corners of the face of a number.
fn room_for_corners(section: &DecodedSection<Items<FaceRecord>>, n: u64) -> usize {
    match section {
        DecodedSection::Known(faces) => match faces.as_slice().get(n as usize) {
            Some(face) => face.corners.len().saturating_mul(CORNER),
            None => 0,
        },
        _ => 0,
    }
}

/// Room for the numbers that a row holds.
fn room_for_row(file: &TreeFile, n: u64) -> usize {
    match &file.rows {
        None => 0,
        Some(rows) => match rows.as_slice().get(n as usize) {
            None => 0,
            Some(row) => room_for_places(row),
        },
    }
}

/// Room for the numbers of the places that are set, each with a space before it.
fn room_for_places(row: &BitRow) -> usize {
    let mut digits = Buffer::new();
    let most = digits.format(row.len()).len().saturating_add(1);
    most.saturating_mul(row.count() as usize)
}
