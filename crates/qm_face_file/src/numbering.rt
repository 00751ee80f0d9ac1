//! The number of a plane.

ghost use Rattle.std.specs.Prelude.{◌≡◌, ◌↔◌, ℕ, negsuc, IsTrue, MatchOption};
ghost use Rattle.qm_space.specs.Bounds.{world_extent};
ghost use Rattle.qm_space.specs.Plane.{flipped};
ghost use Rattle.qm_space.specs.Reduced.{leads_positive};
ghost use Rattle.qm_face_layout.specs.PlaneNumbers.{IsNamedPlane, IsPlaneNumber};
ghost use Rattle.qm_face_file.specs.inner.InBook.{IsEitherAt};
ghost use Rattle.qm_face_file.specs.inner.OnWalls.{IsOnWall};

use crate::named_planes::wall_at;
use qm_geom::{Plane, PlaneBook};
use qm_space::WORLD_EXTENT;

/// How many walls the world's cube has.
const WALLS: u64 = 6;

/// The number of a plane of the book or of a wall of the world's cube, turned or not. A wall has its number as a wall, also where
/// the book has it.
pub fn plane_number(plane: &Plane, book: &PlaneBook) -> i64
    requires { IsNamedPlane book.now world_extent plane.now }
    ensures { IsPlaneNumber book.now world_extent plane.now result }
{
    if let Some(place) = wall_of(plane) {
        return -1 - place as i64;
    }
    match number_in(book, plane) {
        Some(number) => i64::from(number),
        None => unreachable!(),
    }
}

/// The number of a plane in a book, turned or not. It is looked for first as the planes of a book are turned.
fn number_in(book: &PlaneBook, plane: &Plane) -> Option<u32>
    ensures { MatchOption result ((n : ℕ) → IsEitherAt book.now plane.now (flipped plane.now) n → ⊥) (IsEitherAt book.now plane.now (flipped plane.now)) }
{
    let flipped = plane.flipped();
    if leads_positive(plane) {
        either_in(book, plane, &flipped)
    } else {
        either_in(book, &flipped, plane)
    }
}

/// The number of one of two planes in a book.
fn either_in(book: &PlaneBook, first: &Plane, second: &Plane) -> Option<u32>
    ensures { MatchOption result ((n : ℕ) → IsEitherAt book.now first.now second.now n → ⊥) (IsEitherAt book.now first.now second.now) }
{
    match book.find(first) {
        Some(number) => Some(number),
        None => book.find(second),
    }
}

/// Whether the first component of a plane's normal that is not 0 is positive.
fn leads_positive(plane: &Plane) -> bool
    ensures { result ≡ leads_positive plane.now }
{
    if plane.nx != 0 {
        return plane.nx > 0;
    }
    if plane.ny != 0 {
        return plane.ny > 0;
    }
    plane.nz > 0
}

/// The place of the wall on which a plane lies.
fn wall_of(plane: &Plane) -> Option<u64>
    ensures { MatchOption result ((k : ℕ) → IsOnWall plane.now k → ⊥) (IsOnWall plane.now) }
{
    if plane.d.unsigned_abs() != u64::from(WORLD_EXTENT.unsigned_abs()) {
        return None;
    }
    for place in 0..WALLS {
        if is_on_wall(plane, place) {
            return Some(place);
        }
    }
    None
}

/// Whether a plane lies on the wall at a place, turned or not.
fn is_on_wall(plane: &Plane, place: u64) -> bool
    ensures { IsTrue result ↔ IsOnWall plane.now place }
{
    let Some(wall) = wall_at(WORLD_EXTENT.unsigned_abs(), place) else {
        return false;
    };
    *plane == wall || *plane == wall.flipped()
}
