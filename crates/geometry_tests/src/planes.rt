//! Planes through three points, their sides, and their numbers.

use crate::shapes::{inside, thousandths, through};
use qm_geom::{Plane, PlaneBook, Point, ThroughFault};
use std::alloc::Global;
use std::cmp::Ordering;

/// Whether the plane through three points has these numbers, and the normal of the points points to its
/// front as is said.
fn is_through(points: [[i32; 3]; 3], numbers: (i32, i32, i32, i64), out_is_front: bool) -> bool {
    match Plane::through_whole(inside(points[0]), inside(points[1]), inside(points[2])) {
        Ok((plane, out)) => {
            (plane.nx, plane.ny, plane.nz, plane.d) == numbers && out == out_is_front
        }
        Err(_) => false,
    }
}

/// Whether planes through whole points are as they were worked out by hand.
fn are_through_whole() -> bool {
    is_through(
        [[128, 0, 0], [128, 1, 0], [128, 0, 1]],
        (1, 0, 0, 128),
        false,
    ) && is_through(
        [[4096, -4095, 0], [-4096, -4096, 0], [-4095, 4096, 1]],
        (1, -8192, 67108863, 33550336),
        true,
    ) && Plane::through_whole([0, 0, 0], [1, 1, 1], [2, 2, 2]).is_err()
}

/// What three points give.
#[derive(Clone, Copy, PartialEq, Eq)]
enum Answer {
    /// The numbers of their plane, and whether their normal points to its front.
    Plane((i32, i32, i32, i64), bool),
    OnOneLine,
    TooFine,
}

/// Points in thousandths, and what they give. Beside those of a face at one half and those on a line, they span planes of
/// which the greatest component is just 2^26, and one more: to both sides and across each axis.
static THOUSANDTHS: [([[i32; 3]; 3], Answer); 9] = [
    (
        [[500, 0, 0], [500, 1000, 0], [500, 0, 1000]],
        Answer::Plane((2, 0, 0, 1), false),
    ),
    ([[1, 1, 1], [2, 2, 2], [4, 4, 4]], Answer::OnOneLine),
    (
        [[8192, 1, 0], [0, 0, 0], [0, 8192, 1]],
        Answer::Plane((1, -8192, 67108864, 0), true),
    ),
    (
        [[0, 8192, 1], [0, 0, 0], [8192, 1, 0]],
        Answer::Plane((1, -8192, 67108864, 0), false),
    ),
    (
        [[0, 8192, 1], [0, 0, 0], [1, 0, 8192]],
        Answer::Plane((67108864, 1, -8192, 0), true),
    ),
    ([[8065, 1, 0], [0, 0, 0], [0, 8321, 1]], Answer::TooFine),
    ([[0, 8321, 1], [0, 0, 0], [8065, 1, 0]], Answer::TooFine),
    ([[0, 8065, 1], [0, 0, 0], [1, 0, 8321]], Answer::TooFine),
    ([[1, 0, 8065], [0, 0, 0], [8321, 1, 0]], Answer::TooFine),
];

fn given_by(points: [[i32; 3]; 3]) -> Answer {
    match Plane::through(
        thousandths(points[0]),
        thousandths(points[1]),
        thousandths(points[2]),
    ) {
        Ok((plane, out)) => Answer::Plane((plane.nx, plane.ny, plane.nz, plane.d), out),
        Err(ThroughFault::NoNormal) => Answer::OnOneLine,
        Err(ThroughFault::TooFine) => Answer::TooFine,
    }
}

#[test]
fn planes_through_points(rt: HostRuntime) {
    assert!(rt;
        are_through_whole()
            && THOUSANDTHS
                .iter()
                .all(|(points, wanted)| given_by(*points) == *wanted)
    );
}

/// The side of the plane x = 128 on which the point of this x lies, in halves.
fn side_of_wall(x: i64) -> Ordering {
    let wall = through([[128, 0, 0], [128, 1, 0], [128, 0, 1]]);
    wall.side(&Point {
        x,
        y: 5,
        z: -7,
        w: 2,
    })
}

/// The number of the plane through three points, in a book of few planes.
fn number(book: &mut PlaneBook, points: [[i32; 3]; 3]) -> Option<u32> {
    if book.len() > 9 {
        return None;
    }
    let (plane, _) = Plane::through_whole(
        inside(points[0]),
        inside(points[1]),
        inside(points[2]),
    ).ok()?;
    book.number(plane).ok()
}

/// The numbers that three planes get, of which the first and the last are the same, and how many there
/// are then.
fn numbers(book: &mut PlaneBook) -> Option<(u32, u32, u32, u32)> {
    let first = number(book, [[128, 0, 0], [128, 1, 0], [128, 0, 1]])?;
    let second = number(book, [[0, 0, 0], [1, 0, 0], [0, 1, 0]])?;
    let third = number(book, [[128, 0, 0], [128, 1, 0], [128, 0, 1]])?;
    Some((first, second, third, book.len()))
}

/// Whether each plane gets one number, by which it is found, and no other is found.
fn have_numbers(alloc: Global) -> bool {
    let mut book = PlaneBook::new(alloc);
    let found = numbers(&mut book);
    found == Some((0, 1, 0, 2))
        && book.find(&through([[0, 0, 0], [1, 0, 0], [0, 1, 0]])) == Some(1)
        && book
            .find(&through([[0, 0, 1], [1, 0, 1], [0, 1, 1]]))
            .is_none()
}

#[test]
fn sides_and_numbers_of_planes(rt: HostRuntime) {
    assert!(rt;
        side_of_wall(255).is_lt()
            && side_of_wall(256).is_eq()
            && side_of_wall(257).is_gt()
            && have_numbers(rt.alloc())
    );
}
