//! Faces, read at a place.

ghost use Rattle.std.specs.Prelude.{◌≡◌, length};
ghost use Rattle.qm_formats.specs.Layout.{many};
ghost use Rattle.qm_face_layout.specs.FacesLayout.{face_corner_layout, face_corners_layout, face_parts_layout, face_layout};
ghost use Rattle.qm_face_file.specs.Answers.{IsFaultOfFaces, AnswersFaces};

use crate::face_form::is_face;
use crate::faces_fault::FacesFault;
use qm_face_layout::FaceRecord;
use qm_file::{TreeFile, i64_at, u32_at, u64_at};
use qm_lists::Items;
use std::alloc::Global;

/// So many faces of a file, and where they end. No room is made before the bytes are there.
pub(crate) fn all_faces_at(
    alloc: Global,
    bytes: &[u8],
    at: usize,
    count: u64,
    file: &TreeFile,
) -> Result<(Vec<FaceRecord>, usize), FacesFault>
    ensures { AnswersFaces (λ read. read.0.items) (λ read. read.1) result ((many (face_layout file.now) count).read bytes.now at) }
{
    let mut faces = Vec::new(alloc);
    let mut next = at;
    for _ in 0..count {
        let (face, after) = face_at(alloc, bytes, next, file)?;
        faces.push(face)?;
        next = after;
    }
    Ok((faces, next))
}

/// A face that can stand in a file, and where it ends.
#[tactic(auto, unfolding(qm_face_layout::specs::FacesLayout::face_layout))]
fn face_at(
    alloc: Global,
    bytes: &[u8],
    at: usize,
    file: &TreeFile,
) -> Result<(FaceRecord, usize), FacesFault>
    ensures { AnswersFaces (λ read. read.0) (λ read. read.1) result ((face_layout file.now).read bytes.now at) }
{
    let (face, next) = face_parts_at(alloc, bytes, at)?;
    if !is_face(file, &face) {
        return Err(FacesFault::Form { offset: at as u64 });
    }
    Ok((face, next))
}

/// A face, and where it ends.
#[tactic(auto, unfolding(qm_face_layout::specs::FacesLayout::face_parts_layout))]
fn face_parts_at(alloc: Global, bytes: &[u8], at: usize) -> Result<(FaceRecord, usize), FacesFault>
    ensures { AnswersFaces (λ read. read.0) (λ read. read.1) result (face_parts_layout.read bytes.now at) }
{
    let (leaf, next) = u64_at(bytes, at)?;
    let (brush, next) = u64_at(bytes, next)?;
    let (face, next) = u32_at(bytes, next)?;
    let (corners, next) = corners_at(alloc, bytes, next)?;
    let face = FaceRecord {
        leaf,
        brush,
        face,
        corners: Items::from_vec(corners),
    };
    Ok((face, next))
}

/// The corners of a face behind their number, and where they end.
#[tactic(auto, unfolding(qm_face_layout::specs::FacesLayout::face_corners_layout))]
fn corners_at(alloc: Global, bytes: &[u8], at: usize) -> Result<(Vec<[i64; 3]>, usize), FacesFault>
    ensures { AnswersFaces (λ read. read.0.items) (λ read. read.1) result (face_corners_layout.read bytes.now at) }
{
    let (count, next) = u32_at(bytes, at)?;
    all_corners_at(alloc, bytes, next, count)
}

/// So many corners, and where they end. No room is made before the bytes are there.
fn all_corners_at(
    alloc: Global,
    bytes: &[u8],
    at: usize,
    count: u32,
) -> Result<(Vec<[i64; 3]>, usize), FacesFault>
    ensures { AnswersFaces (λ read. read.0.items) (λ read. read.1) result ((many face_corner_layout count).read bytes.now at) }
{
    let mut corners = Vec::new(alloc);
    let mut next = at;
    for _ in 0..count {
        let (corner, after) = corner_at(bytes, next)?;
        corners.push(corner)?;
        next = after;
    }
    Ok((corners, next))
}

/// The three numbers of a corner, and where they end.
#[tactic(auto, unfolding(qm_face_layout::specs::FacesLayout::face_corner_layout))]
fn corner_at(bytes: &[u8], at: usize) -> Result<([i64; 3], usize), FacesFault>
    ensures { AnswersFaces (λ read. read.0) (λ read. read.1) result (face_corner_layout.read bytes.now at) }
{
    let (own, next) = i64_at(bytes, at)?;
    let (before, next) = i64_at(bytes, next)?;
    let (after, next) = i64_at(bytes, next)?;
    Ok(([own, before, after], next))
}
