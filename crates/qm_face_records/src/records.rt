ghost use Rattle.std.specs.Prelude.{◌≡◌, List, All, IfOk, OnOk};
ghost use Rattle.qm_space.specs.Bounds.{world_extent};
ghost use Rattle.qm_face_layout.specs.declared.face_record.FaceRecord.{FaceRecord};
ghost use Rattle.qm_face_layout.specs.FacesLayout.{faces_bytes};
ghost use Rattle.qm_face_sections.specs.FaceRecords.{IsRecordOf, AreRecordsOf};
ghost use Rattle.qm_face_records.specs.PiecesInBook.{AreWithinContacts};
ghost use Rattle.qm_face_records.specs.inner.NumberedPlanes.{HasPlaneNumbers};

use qm_face_corners::{PlaneNumbers, numbered_corners};
use qm_face_file::{FaceRecord, encode_records};
use qm_faces::FacePiece;
use qm_geom::PlaneBook;
use std::alloc::{AllocError, Global};

/// The bytes of the section of faces of these pieces of a surface.
pub fn encode(alloc: Global, pieces: &[FacePiece], book: &PlaneBook) -> Result<Vec<u8>, AllocError>
    requires { AreWithinContacts book.now pieces.now }
    ensures { IfOk result (λ bytes. (faces : List FaceRecord) × AreRecordsOf book.now world_extent pieces.now faces × (bytes.items ≡ faces_bytes faces)) }
{
    let records = records_of(alloc, pieces, book)?;
    encode_records(alloc, &records)
}

/// The records of pieces, in their order.
fn records_of(
    alloc: Global,
    pieces: &[FacePiece],
    book: &PlaneBook,
) -> Result<Vec<FaceRecord>, AllocError>
    requires { All (HasPlaneNumbers book.now) pieces.now }
    ensures { IfOk result (λ records. AreRecordsOf book.now world_extent pieces.now records.items) }
{
    let mut numbers = PlaneNumbers::over(alloc, book)?;
    let mut records = Vec::with_capacity(alloc, pieces.len())?;
    for piece in pieces {
        records.push(record_of(alloc, piece, &mut numbers)?)?;
    }
    Ok(records)
}

/// The record of a piece.
fn record_of(
    alloc: Global,
    piece: &FacePiece,
    numbers: &mut PlaneNumbers<'_>,
) -> Result<FaceRecord, AllocError>
    requires { HasPlaneNumbers numbers.old piece.now }
    ensures record { IfOk result (IsRecordOf numbers.old world_extent piece.now) }
    ensures same { OnOk result (numbers.new ≡ numbers.old) }
{
    let corners = numbered_corners(alloc, &piece.pane, numbers)?;
    Ok(FaceRecord {
        leaf: piece.leaf,
        brush: piece.brush,
        face: piece.face,
        corners,
    })
}
