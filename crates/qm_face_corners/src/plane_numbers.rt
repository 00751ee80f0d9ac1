//! The numbers of planes, kept so that few are looked for in the book.

ghost use Rattle.std.specs.Prelude.{◌≡◌, ◌<◌, length, All, IfOk};
ghost use Rattle.qm_space.specs.Bounds.{world_extent};
ghost use Rattle.qm_face_layout.specs.PlaneNumbers.{IsNamedPlane, IsPlaneNumber};
ghost use Rattle.qm_face_corners.specs.inner.KeptNumbers.{HasItsNumber};

use crate::kept_number::KeptNumber;
use qm_face_file::{named_plane, plane_number};
use qm_geom::{Plane, PlaneBook};
use qm_space::WORLD_EXTENT;
use std::alloc::{AllocError, Global};
use std::marker::Model;

/// How many numbers are kept.
const PLACES: usize = 1024;

/// The numbers of the planes of a book and of the walls of the world's cube. Contracts see the planes of the book.
#[derive(Drop)]
pub struct PlaneNumbers<'a> {
    book: &'a PlaneBook,
    kept: Vec<KeptNumber>,
}

impl<'a> Model for PlaneNumbers<'a> {
    ghost use Rattle.std.specs.Prelude.{List};
    ghost use Rattle.qm_space.specs.Plane.{Plane};
    ghost use Rattle.qm_face_corners.specs.inner.KeptNumbers.{AreKeptNumbers};

    ghost Value = { List Plane };

    ghost view = { λ numbers. numbers.book.now };

    ghost invariant = { λ numbers. AreKeptNumbers numbers.book.now numbers.kept.items };
}

impl<'a> PlaneNumbers<'a> {
    /// The numbers of a book.
    pub fn over(alloc: Global, book: &'a PlaneBook) -> Result<PlaneNumbers<'a>, AllocError>
        ensures { IfOk result (λ numbers. numbers ≡ book.now) }
    {
        let first = first_wall(book);
        let kept = repeated(alloc, &first)?;
        Ok(PlaneNumbers { book, kept })
    }

    /// The number of a plane of the book or of a wall of the world's cube, turned or not.
    pub fn number(&mut self, plane: &Plane) -> i64
        requires { IsNamedPlane self.old world_extent plane.now }
        ensures number { IsPlaneNumber self.old world_extent plane.now result }
        ensures same { self.new ≡ self.old }
    {
        let place = place_of(plane);
        let kept = self.kept[place];
        if kept.plane == *plane {
            return kept.own_number();
        }
        let number = plane_number(plane, self.book);
        self.kept[place] = KeptNumber {
            plane: *plane,
            number,
        };
        number
    }
}

/// The first wall of the world's cube, with its number.
fn first_wall(book: &PlaneBook) -> KeptNumber
    ensures { HasItsNumber book.now result }
{
    match named_plane(&[], WORLD_EXTENT.unsigned_abs(), -1) {
        Some(plane) => {
            let number = plane_number(&plane, book);
            KeptNumber { plane, number }
        }
        None => unreachable!(),
    }
}

/// A number as often as there are places.
fn repeated(alloc: Global, first: &KeptNumber) -> Result<Vec<KeptNumber>, AllocError>
    ensures count { IfOk result (λ kept. length kept.items ≡ 1024) }
    ensures each { IfOk result (λ kept. All (λ one. one ≡ first.now) kept.items) }
{
    let mut kept = Vec::with_capacity(alloc, PLACES)?;
    for _ in 0..PLACES {
        kept.push(*first)?;
    }
    Ok(kept)
}

/// The place at which the number of a plane is kept, by a mix of all that the plane consists of.
fn place_of(plane: &Plane) -> usize
    ensures { result < 1024 }
{
    let of_x = mixed(0, i64::from(plane.nx));
    let of_y = mixed(of_x, i64::from(plane.ny));
    let of_z = mixed(of_y, i64::from(plane.nz));
    let all = mixed(of_z, plane.d);
    ((all >> 40) % 1024) as usize
}

/// A number mixed with another one.
fn mixed(number: u64, other: i64) -> u64 {
    let size = other.unsigned_abs();
    let spread = if other < 0 { u64::MAX - size } else { size };
    number
        .wrapping_add(spread)
        .wrapping_mul(6364136223846793005)
}
