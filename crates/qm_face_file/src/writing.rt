ghost use Rattle.std.specs.Prelude.{◌≡◌, IfOk};
ghost use Rattle.qm_face_layout.specs.FacesLayout.{faces_bytes};

use crate::face_bytes::FaceBytes;
use crate::field_bytes::put_u64;
use qm_face_layout::FaceRecord;
use qm_lists::append_all;
use std::alloc::{AllocError, Global};

/// The bytes of a section of these faces.
#[tactic(auto, unfolding(qm_face_layout::specs::FacesLayout::faces_bytes))]
pub fn encode_records(alloc: Global, faces: &[FaceRecord]) -> Result<Vec<u8>, AllocError>
    ensures { IfOk result (λ bytes. bytes.items ≡ faces_bytes faces.now) }
{
    let mut bytes = Vec::new(alloc);
    put_u64(&mut bytes, faces.len() as u64)?;
    append_all::<FaceBytes>(&mut bytes, faces)?;
    Ok(bytes)
}
