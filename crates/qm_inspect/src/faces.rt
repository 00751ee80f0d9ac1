//! How many faces there are, and whether one is among them.

ghost use Rattle.std.specs.Prelude.{◌≡◌, Ok, length};
ghost use Rattle.qm_answers.specs.declared.answer.Answer.TheVariants.{Faces};
ghost use Rattle.qm_answers.specs.Answers.{answer_to_face, AnswersBySection};

use qm_answers::{Answer, DecodedSection, QueryFault};
use qm_face_file::FaceRecord;
use qm_lists::Items;

/// How many faces there are. `NoPart` exactly where the file has no section of faces, and `BadPart` exactly where its reader
/// refuses that section.
pub(crate) fn faces(section: &DecodedSection<Items<FaceRecord>>) -> Result<Answer, QueryFault>
    ensures { AnswersBySection section.now (λ faces answer. answer ≡ Ok (Faces (length faces))) result }
{
    match section {
        DecodedSection::Missing => Err(QueryFault::NoPart),
        DecodedSection::Bad => Err(QueryFault::BadPart),
        DecodedSection::Known(faces) => Ok(Answer::Faces(faces.len() as u64)),
    }
}

/// That the face of a number is there. The same, and then `NoSuchFace` exactly where there are not that many.
pub(crate) fn face(
    section: &DecodedSection<Items<FaceRecord>>,
    n: u64,
) -> Result<Answer, QueryFault>
    ensures { AnswersBySection section.now (λ faces answer. answer ≡ answer_to_face faces n) result }
{
    match section {
        DecodedSection::Missing => Err(QueryFault::NoPart),
        DecodedSection::Bad => Err(QueryFault::BadPart),
        DecodedSection::Known(faces) => known_face(faces.as_slice(), n),
    }
}

/// That the face of a number is among these.
fn known_face(faces: &[FaceRecord], n: u64) -> Result<Answer, QueryFault>
    ensures { result ≡ answer_to_face faces.now n }
{
    if n < faces.len() as u64 {
        Ok(Answer::Face(n))
    } else {
        Err(QueryFault::NoSuchFace)
    }
}
