//! Faces as text.

ghost use Rattle.std.specs.Prelude.{◌≡◌, ◌++◌, ◌∷◌, [], ◌≤◌, ◌^◌, ◌<ℤ◌, pos, unsigned_abs, MatchOption, OnOk, string_bytes};
ghost use Rattle.qm_listing.specs.Numbers.{coordinate_numeral};
ghost use Rattle.qm_listing.specs.WorldListing.{coordinate_at, coordinates_at};
ghost use Rattle.qm_answers.specs.AnswerText.{words_of_faces, words_of_face, words_of_known_face};
ghost use Rattle.qm_answers.specs.CornerText.{coordinates_of_corner, spaced_coordinates, bracketed, spaced_corners};

use crate::six_decimals::put_spaced_fraction;
use qm_answers::DecodedSection;
use qm_face_file::{FaceRecord, named_plane};
use qm_geom::{Corner, Plane};
use qm_lists::Items;
use std::alloc::AllocError;

/// Adds the words of how many faces there are.
#[tactic(auto, unfolding(qm_answers::specs::AnswerText::words_of_faces))]
pub(crate) fn put_faces(text: &mut String, count: u64) -> Result<(), AllocError>
    ensures { OnOk result (string_bytes text.new ≡ string_bytes text.old ++ words_of_faces count) }
{
    write!(text, "faces {count}")
}

/// Adds the words of the face of a number, where it is there.
pub(crate) fn put_face(
    text: &mut String,
    planes: &[Plane],
    bound: u32,
    section: &DecodedSection<Items<FaceRecord>>,
    n: u64,
) -> Result<(), AllocError>
    ensures { OnOk result (string_bytes text.new ≡ string_bytes text.old ++ words_of_known_face planes.now bound section.now n) }
{
    if let DecodedSection::Known(faces) = section {
        if let Some(face) = faces.as_slice().get(n as usize) {
            put_words_of_face(text, planes, bound, n, face)?;
        }
    }
    Ok(())
}

/// Adds the words of a face: its number, its leaf, its brush, its place among the faces of the brush, and its corners.
#[tactic(auto, unfolding(qm_answers::specs::AnswerText::words_of_face))]
fn put_words_of_face(
    text: &mut String,
    planes: &[Plane],
    bound: u32,
    n: u64,
    face: &FaceRecord,
) -> Result<(), AllocError>
    ensures { OnOk result (string_bytes text.new ≡ string_bytes text.old ++ words_of_face planes.now bound n face.now) }
{
    let leaf = face.leaf;
    let brush = face.brush;
    let place = face.face;
    write!(text, "face {n} leaf {leaf} brush {brush} face {place}")?;
    put_corners(text, planes, bound, face.corners.as_slice())
}

/// Adds corners, each after a space.
fn put_corners(
    text: &mut String,
    planes: &[Plane],
    bound: u32,
    corners: &[[i64; 3]],
) -> Result<(), AllocError>
    ensures { OnOk result (string_bytes text.new ≡ string_bytes text.old ++ spaced_corners planes.now bound corners.now) }
{
    for corner in corners {
        put_corner(text, planes, bound, corner)?;
    }
    Ok(())
}

/// Adds a corner after a space: its coordinates between brackets.
#[tactic(auto, unfolding(qm_answers::specs::CornerText::bracketed))]
fn put_corner(
    text: &mut String,
    planes: &[Plane],
    bound: u32,
    corner: &[i64; 3],
) -> Result<(), AllocError>
    ensures { OnOk result (string_bytes text.new ≡ string_bytes text.old ++ (32 ∷ bracketed (coordinates_of_corner planes.now bound corner.now))) }
{
    text.push_str(" (")?;
    if let Some(point) = corner_of(planes, bound, corner) {
        put_coordinates(text, &point)?;
    }
    text.push(')')
}

/// The point in which the planes of a corner meet, where they meet in just one.
fn corner_of(planes: &[Plane], bound: u32, corner: &[i64; 3]) -> Option<Corner>
    ensures { MatchOption result (coordinates_of_corner planes.now bound corner.now ≡ []) (λ point. coordinates_of_corner planes.now bound corner.now ≡ coordinates_at point) }
{
    let [own, before, next] = *corner;
    let Some(own) = named_plane(planes, bound, own) else {
        return None;
    };
    let Some(before) = named_plane(planes, bound, before) else {
        return None;
    };
    let Some(next) = named_plane(planes, bound, next) else {
        return None;
    };
    Corner::of(&own, &before, &next)
}

/// Adds the coordinates of a point, each with a space behind it.
fn put_coordinates(text: &mut String, point: &Corner) -> Result<(), AllocError>
    ensures { OnOk result (string_bytes text.new ≡ string_bytes text.old ++ spaced_coordinates (coordinates_at point.now)) }
{
    let (x, w) = point.fraction(0);
    let (y, _) = point.fraction(1);
    let (z, _) = point.fraction(2);
    put_coordinate(text, x, w)?;
    put_coordinate(text, y, w)?;
    put_coordinate(text, z, w)
}

/// Adds a coordinate with a space behind it.
fn put_coordinate(text: &mut String, over: i128, under: i128) -> Result<(), AllocError>
    requires above_zero { pos 0 <ℤ under }
    requires bounded { unsigned_abs over ≤ 2 ^ 100 }
    ensures { OnOk result (string_bytes text.new ≡ string_bytes text.old ++ (coordinate_numeral (coordinate_at over under) ++ 32 ∷ [])) }
{
    put_spaced_fraction(text, over, under)
}
