ghost use Rattle.std.specs.Prelude.{◌≡◌, ◌^◌};
ghost use Rattle.qm_space.specs.Meet.{meet};
ghost use Rattle.qm_geom.specs.Corners.{with_positive_weight};
ghost use Rattle.qm_geom.specs.Vectors.{cross_vector, normal_vector, HasSmallComponents};

use crate::plane::Plane;
use crate::vector::Vector;
use std::marker::Model;

/// The point in which three planes meet, by Cramer's rule; where they do not meet in exactly one
/// point, `w` is 0.
#[derive(Clone, Copy)]
pub(crate) struct Meeting {
    pub(crate) x: i128,
    pub(crate) y: i128,
    pub(crate) z: i128,
    pub(crate) w: i128,
}

impl Model for Meeting {
    ghost use Rattle.qm_space.specs.Point.{Point};
    ghost use Rattle.qm_space.specs.Meet.{HasMeetSizes};

    ghost Value = { Point };

    ghost view = { λ p. record { x = p.x; y = p.y; z = p.z; w = p.w } };

    ghost invariant = { λ p. HasMeetSizes (record { x = p.x; y = p.y; z = p.z; w = p.w }) };

    ghost inverse = { λ p. record { x = p.x; y = p.y; z = p.z; w = p.w } };
}

impl Meeting {
    /// The cross products of the normals in pairs, each times the distance of the third plane, over
    /// the triple product of the normals.
    pub(crate) fn of(a: &Plane, b: &Plane, c: &Plane) -> Meeting
        ensures { result ≡ meet a.now b.now c.now }
    {
        let across_a = normals_crossed(b, c);
        let across_b = normals_crossed(c, a);
        let across_c = normals_crossed(a, b);
        let distances = Vector {
            x: a.d,
            y: b.d,
            z: c.d,
        };
        Meeting {
            x: distances.dot(&Vector {
                x: across_a.x,
                y: across_b.x,
                z: across_c.x,
            }),
            y: distances.dot(&Vector {
                x: across_a.y,
                y: across_b.y,
                z: across_c.y,
            }),
            z: distances.dot(&Vector {
                x: across_a.z,
                y: across_b.z,
                z: across_c.z,
            }),
            w: a.normal().dot(&across_a),
        }
    }

    /// The same place, its four numbers negated where `w` is negative.
    pub(crate) fn with_positive_weight(&self) -> Meeting
        ensures { result ≡ with_positive_weight self.now }
    {
        if self.w >= 0 {
            return *self;
        }
        Meeting {
            x: -self.x,
            y: -self.y,
            z: -self.z,
            w: -self.w,
        }
    }
}

/// The cross product of the normals of two planes.
fn normals_crossed(a: &Plane, b: &Plane) -> Vector
    ensures exact { result ≡ cross_vector (normal_vector a.now) (normal_vector b.now) }
    ensures size { HasSmallComponents result (2 ^ 53) }
{
    a.normal().cross(&b.normal())
}
