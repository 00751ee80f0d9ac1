//! The bytes of faces and of their corners.

ghost use Rattle.std.specs.Prelude.{◌≡◌, ◌++◌, OnOk};
ghost use Rattle.qm_face_layout.specs.FacesLayout.{face_corner_layout, face_parts_layout};

use crate::field_bytes::{put_i64, put_small_count, put_u32, put_u64};
use qm_face_layout::FaceRecord;
use qm_lists::{Encoding, append_all};
use std::alloc::AllocError;

/// The three numbers of a corner, each in 64 bits.
struct CornerBytes;

impl Encoding for CornerBytes {
    type Value = [i64; 3];

    ghost can_append = { λ _. Unit {0} };

    ghost bytes_of = { face_corner_layout.bytes_of };

    fn append(bytes: &mut Vec<u8>, corner: &[i64; 3]) -> Result<(), AllocError> {
        let [own, before, next] = *corner;
        put_i64(bytes, own)?;
        put_i64(bytes, before)?;
        put_i64(bytes, next)?;
        Ok(())
    }
}

/// The leaf and the brush in 64 bits, the place of the face in 32, and the corners behind their number.
pub(crate) struct FaceBytes;

impl Encoding for FaceBytes {
    type Value = FaceRecord;

    ghost can_append = { λ _. Unit {0} };

    ghost bytes_of = { face_parts_layout.bytes_of };

    fn append(bytes: &mut Vec<u8>, face: &FaceRecord) -> Result<(), AllocError> {
        put_u64(bytes, face.leaf)?;
        put_u64(bytes, face.brush)?;
        put_u32(bytes, face.face)?;
        put_small_count(bytes, face.corners.len())?;
        append_all::<CornerBytes>(bytes, face.corners.as_slice())?;
        Ok(())
    }
}
