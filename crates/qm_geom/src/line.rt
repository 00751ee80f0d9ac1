ghost use Rattle.std.specs.Prelude.{◌≡◌, ◌≤◌, ◌*◌, ◌^◌, pos, ◌-ℤ◌, ◌*ℤ◌, unsigned_abs};
ghost use Rattle.std.specs.Ordering.{int_cmp};
ghost use Rattle.qm_space.specs.Plane.{Plane, value};
ghost use Rattle.qm_space.specs.Meet.{meet};
ghost use Rattle.qm_space.specs.CommonLine.{common_line, moment_about, line_product};

use crate::plane::Plane;
use crate::vector::{Vector, product};
use std::cmp::Ordering;
use std::marker::Model;

/// The line in which two planes meet: its direction, and its moment about the origin.
#[derive(Clone, Copy)]
pub struct Line {
    along: Vector,
    moment_x: i128,
    moment_y: i128,
    moment_z: i128,
}

impl Model for Line {
    ghost use Rattle.qm_space.specs.CommonLine.{CommonLine, HasLineSizes};

    ghost Value = { CommonLine };

    ghost view = { λ l. record { along_x = l.along.x; along_y = l.along.y; along_z = l.along.z; moment_x = l.moment_x; moment_y = l.moment_y; moment_z = l.moment_z } };

    ghost invariant = { λ l. HasLineSizes (record { along_x = l.along.x; along_y = l.along.y; along_z = l.along.z; moment_x = l.moment_x; moment_y = l.moment_y; moment_z = l.moment_z }) };

    ghost inverse = { λ l. record { along = record { x = l.along_x; y = l.along_y; z = l.along_z }; moment_x = l.moment_x; moment_y = l.moment_y; moment_z = l.moment_z } };
}

impl Line {
    /// The line in which two planes meet.
    pub fn of(a: &Plane, b: &Plane) -> Line
        ensures { result ≡ common_line a.now b.now }
    {
        Line {
            along: a.normal().cross(&b.normal()),
            moment_x: moment(a.nx, a.d, b.nx, b.d),
            moment_y: moment(a.ny, a.d, b.ny, b.d),
            moment_z: moment(a.nz, a.d, b.nz, b.d),
        }
    }

    /// Where the second plane of the line meets two others: on which side of its first plane that
    /// corner lies.
    pub fn side_of_meeting(&self, a: &Plane, b: &Plane) -> Ordering
        ensures { (g h : Plane) → self.now ≡ common_line g h → result ≡ int_cmp (value g (meet h a.now b.now)) (pos 0) }
    {
        self.side(&Line::of(a, b))
    }

    fn side(&self, other: &Line) -> Ordering
        ensures { result ≡ int_cmp (line_product self.now other.now) (pos 0) }
    {
        self.product(other).cmp(&0)
    }

    fn product(&self, other: &Line) -> i128
        ensures { result ≡ line_product self.now other.now }
    {
        self.moment_about(other) + other.moment_about(self)
    }

    fn moment_about(&self, other: &Line) -> i128
        ensures exact { result ≡ moment_about self.now other.now }
        ensures size { unsigned_abs result ≤ 3 * 2 ^ 124 }
    {
        let of_x = times(self.along.x, other.moment_x);
        let of_y = times(self.along.y, other.moment_y);
        let of_z = times(self.along.z, other.moment_z);
        of_x + of_y + of_z
    }
}

/// One number of a moment, of two planes' components and distances.
fn moment(first: i32, first_distance: i64, second: i32, second_distance: i64) -> i128
    requires first_small { unsigned_abs first ≤ 2 ^ 26 }
    requires first_distance_small { unsigned_abs first_distance ≤ 2 ^ 44 }
    requires second_small { unsigned_abs second ≤ 2 ^ 26 }
    requires second_distance_small { unsigned_abs second_distance ≤ 2 ^ 44 }
    ensures exact { result ≡ (first *ℤ second_distance) -ℤ (first_distance *ℤ second) }
    ensures size { unsigned_abs result ≤ 2 ^ 71 }
{
    product(i64::from(first), second_distance) - product(first_distance, i64::from(second))
}

/// A number of a direction times one of a moment.
fn times(first: i64, second: i128) -> i128
    requires { unsigned_abs first * unsigned_abs second ≤ 2 ^ 124 }
    ensures exact { result ≡ first *ℤ second }
    ensures size { unsigned_abs result ≤ 2 ^ 124 }
{
    i128::from(first) * second
}
