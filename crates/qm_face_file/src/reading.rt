ghost use Rattle.std.specs.Prelude.{◌≡◌, List, length, IfOk, MatchResult};
ghost use Rattle.qm_face_layout.specs.declared.face_record.FaceRecord.{FaceRecord};
ghost use Rattle.qm_face_layout.specs.FacesLayout.{faces_layout, AreFacesBytes, read_faces};
ghost use Rattle.qm_face_file.specs.Answers.{IsFaultOfFaces, AnswersFaces};

use crate::face_reading::all_faces_at;
use crate::faces_fault::FacesFault;
use qm_face_layout::FaceRecord;
use qm_file::{TreeFile, u64_at};
use qm_lists::Items;
use std::alloc::Global;

/// The faces of the bytes of a section of a file, or the first fault in the order of the bytes.
pub fn decode(alloc: Global, bytes: &[u8], file: &TreeFile) -> Result<Items<FaceRecord>, FacesFault>
    // What is read can stand there and is written so.
    ensures found { IfOk result (AreFacesBytes file.now bytes.now) }
    // What can stand there and is written so is read, unless memory runs out.
    ensures only { (faces : List FaceRecord) → AreFacesBytes file.now bytes.now faces → MatchResult result (λ found. found ≡ faces) (λ fault. fault ≡ FacesFault.Memory) }
    // Which fault it is.
    ensures exact { AnswersFaces (λ faces. faces) (λ _. length bytes.now) result (read_faces file.now bytes.now) }
{
    whole_section(alloc, bytes, file)
}

#[tactic(auto, unfolding(qm_face_layout::specs::FacesLayout::read_faces))]
fn whole_section(
    alloc: Global,
    bytes: &[u8],
    file: &TreeFile,
) -> Result<Items<FaceRecord>, FacesFault>
    ensures { AnswersFaces (λ faces. faces) (λ _. length bytes.now) result (read_faces file.now bytes.now) }
{
    let (faces, next) = faces_at_start(alloc, bytes, file)?;
    if next < bytes.len() {
        return Err(FacesFault::Trailing {
            offset: next as u64,
        });
    }
    Ok(Items::from_vec(faces))
}

/// The faces with which bytes begin, behind their number, and where they end.
#[tactic(auto, unfolding(qm_face_layout::specs::FacesLayout::faces_layout))]
fn faces_at_start(
    alloc: Global,
    bytes: &[u8],
    file: &TreeFile,
) -> Result<(Vec<FaceRecord>, usize), FacesFault>
    ensures { AnswersFaces (λ read. read.0.items) (λ read. read.1) result ((faces_layout file.now).read bytes.now 0) }
{
    let (count, next) = u64_at(bytes, 0)?;
    all_faces_at(alloc, bytes, next, count, file)
}
