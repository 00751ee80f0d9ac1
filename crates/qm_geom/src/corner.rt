ghost use Rattle.std.specs.Prelude.{◌≡◌, ◌<◌, ◌≤◌, ◌*◌, ◌^◌, ℕ, pos, ◌*ℤ◌, ◌<ℤ◌, unsigned_abs, IfSome, IfNone};
ghost use Rattle.std.specs.List.{All};
ghost use Rattle.std.specs.Ordering.{int_cmp};
ghost use Rattle.qm_space.specs.Point.{Point};
ghost use Rattle.qm_space.specs.Plane.{value, IsOn};
ghost use Rattle.qm_space.specs.Meet.{meet, HasMeetSizes};
ghost use Rattle.qm_geom.specs.Corners.{numerator, with_positive_weight, MeetBeside, MeetOnlyIn};
ghost use Rattle.qm_space.specs.LeastDistance.{IsComponent};
ghost use Rattle.qm_space.specs.inner.LeastDistanceOf.{IsLeastDistanceOf};
ghost use Rattle.qm_geom.specs.Vectors.{dot, step_to, HasSmallComponents};
ghost use Rattle.qm_numbers.specs.Rounding.{IsNearest, IsRoundedDown, IsRoundedUp};
ghost use Rattle.qm_space.specs.Coordinates.{AreCoordinatesBy, HasSmallCoordinates};

use crate::meeting::Meeting;
use crate::plane::Plane;
use crate::rounding::{coordinate_above, coordinate_below, nearest_coordinate, rounded_up};
use crate::vector::Vector;
use std::cmp::Ordering;
use std::marker::Model;

/// The one point in which three planes meet: three numerators over one positive denominator.
#[derive(Clone, Copy)]
pub struct Corner {
    x: i128,
    y: i128,
    z: i128,
    w: i128,
}

impl Model for Corner {
    ghost use Rattle.qm_space.specs.Point.{Point};
    ghost use Rattle.qm_geom.specs.Corners.{IsCorner};

    ghost Value = { Point };

    ghost view = { λ p. record { x = p.x; y = p.y; z = p.z; w = p.w } };

    ghost invariant = { λ p. IsCorner (record { x = p.x; y = p.y; z = p.z; w = p.w }) };

    ghost inverse = { λ p. record { x = p.x; y = p.y; z = p.z; w = p.w } };
}

impl Default for Corner {
    fn default() -> Corner {
        Corner {
            x: 0,
            y: 0,
            z: 0,
            w: 1,
        }
    }
}

impl Corner {
    /// The corner of three planes whose normals, in this order, turn to the front.
    pub fn turning(a: &Plane, b: &Plane, c: &Plane) -> Corner
        requires { pos 0 <ℤ (meet a.now b.now c.now).w }
        ensures { result ≡ meet a.now b.now c.now }
    {
        let meeting = Meeting::of(a, b, c);
        Corner {
            x: meeting.x,
            y: meeting.y,
            z: meeting.z,
            w: meeting.w,
        }
    }

    /// The corner of three planes; `None` exactly where they do not meet in exactly one point.
    pub fn of(a: &Plane, b: &Plane, c: &Plane) -> Option<Corner>
        ensures value { IfSome result (λ p. p ≡ with_positive_weight (meet a.now b.now c.now)) }
        ensures only { IfSome result (λ p. MeetOnlyIn a.now b.now c.now p) }
        ensures none { IfNone result ((p : Point) → MeetOnlyIn a.now b.now c.now p → ⊥) }
        ensures beside { IfNone result ((p : Point) → pos 0 <ℤ p.w → IsOn a.now p → IsOn b.now p → IsOn c.now p → MeetBeside a.now b.now c.now p) }
    {
        let meeting = Meeting::of(a, b, c).with_positive_weight();
        if meeting.w == 0 {
            return None;
        }
        Some(Corner {
            x: meeting.x,
            y: meeting.y,
            z: meeting.z,
            w: meeting.w,
        })
    }

    /// The side of the plane on which the corner lies: `Less` behind it, `Equal` on it, `Greater` in
    /// front of it.
    pub fn side(&self, plane: &Plane) -> Ordering
        ensures { result ≡ int_cmp (value plane.now self.now) (pos 0) }
    {
        self.value(plane).cmp(&0)
    }

    /// The nearest whole numbers to the three coordinates; of two that are equally near, the one
    /// farther from 0.
    pub fn rounded(&self) -> [i32; 3]
        requires { HasSmallCoordinates self.now }
        ensures { AreCoordinatesBy IsNearest self.now result }
    {
        [
            nearest_coordinate(self.x, self.w),
            nearest_coordinate(self.y, self.w),
            nearest_coordinate(self.z, self.w),
        ]
    }

    /// The three coordinates rounded down, and the three rounded up.
    pub fn around(&self) -> ([i32; 3], [i32; 3])
        requires { HasSmallCoordinates self.now }
        ensures below { AreCoordinatesBy IsRoundedDown self.now result.0 }
        ensures above { AreCoordinatesBy IsRoundedUp self.now result.1 }
    {
        (self.below(), self.above())
    }

    fn below(&self) -> [i32; 3]
        requires { HasSmallCoordinates self.now }
        ensures { AreCoordinatesBy IsRoundedDown self.now result }
    {
        [
            coordinate_below(self.x, self.w),
            coordinate_below(self.y, self.w),
            coordinate_below(self.z, self.w),
        ]
    }

    fn above(&self) -> [i32; 3]
        requires { HasSmallCoordinates self.now }
        ensures { AreCoordinatesBy IsRoundedUp self.now result }
    {
        [
            coordinate_above(self.x, self.w),
            coordinate_above(self.y, self.w),
            coordinate_above(self.z, self.w),
        ]
    }

    /// The numerator and the positive denominator of one coordinate: of x, y and z for the axes 0, 1
    /// and 2.
    pub fn fraction(&self, axis: usize) -> (i128, i128)
        requires { axis < 3 }
        ensures numerator { result.0 ≡ numerator self.now axis }
        ensures denominator { result.1 ≡ self.now.w }
        ensures positive { pos 0 <ℤ result.1 }
        ensures sizes { HasMeetSizes self.now }
    {
        let numerator = match axis {
            0 => self.x,
            1 => self.y,
            _ => self.z,
        };
        (numerator, self.w)
    }

    /// The least whole distance at which the corner is not in front of the plane with this normal.
    pub(crate) fn least_distance(&self, normal: [i32; 3]) -> i64
        requires normal_small { All IsComponent normal }
        requires corner_small { HasSmallCoordinates self.now }
        ensures { IsLeastDistanceOf normal self.now result }
    {
        rounded_up(self.along(&Vector::of(normal)), self.w)
    }

    /// The dot product of a normal with the three numerators.
    fn along(&self, normal: &Vector) -> i128
        requires { HasSmallComponents normal.now (2 ^ 26) }
        ensures exact { result ≡ dot normal.now (step_to self.now) }
        ensures size { unsigned_abs result ≤ 9 * 2 ^ 123 }
    {
        let of_x = times(normal.x, self.x);
        let of_y = times(normal.y, self.y);
        let of_z = times(normal.z, self.z);
        of_x + of_y + of_z
    }

    fn value(&self, plane: &Plane) -> i128
        ensures { result ≡ value plane.now self.now }
    {
        self.along(&plane.normal()) - times(plane.d, self.w)
    }
}

/// A component of a normal times a numerator, or a distance times a denominator.
fn times(first: i64, second: i128) -> i128
    requires { unsigned_abs first * unsigned_abs second ≤ 3 * 2 ^ 123 }
    ensures exact { result ≡ first *ℤ second }
    ensures size { unsigned_abs result ≤ 3 * 2 ^ 123 }
{
    i128::from(first) * second
}
