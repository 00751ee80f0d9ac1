//! Points by numerators over one denominator.

ghost use Rattle.std.specs.Prelude.{◌≡◌, ◌≤◌, ◌*ℤ◌, ◌^◌, pos, ◌<ℤ◌, ◌↔◌, All, IsTrue, unsigned_abs};
ghost use Rattle.qm_space.specs.Plane.{value};

use qm_geom::Plane;
use std::marker::Model;

/// A point, as three numerators over one denominator.
#[derive(Clone, Copy)]
pub(crate) struct Spot {
    pub(crate) x: i64,
    pub(crate) y: i64,
    pub(crate) z: i64,
    pub(crate) w: i64,
}

impl Model for Spot {
    ghost use Rattle.qm_space.specs.Point.{Point};

    ghost Value = { Point };

    ghost view = { λ s. record { x = s.x; y = s.y; z = s.z; w = s.w } };

    ghost inverse = { λ s. record { x = s.x; y = s.y; z = s.z; w = s.w } };
}

impl Spot {
    /// The value of a plane there.
    fn value(&self, plane: &Plane) -> i128
        ensures { result ≡ value plane.now self.now }
    {
        let along_x = product(self.x, i64::from(plane.nx));
        let along_y = product(self.y, i64::from(plane.ny));
        let along_z = product(self.z, i64::from(plane.nz));
        let far = product(self.w, plane.d);
        along_x + along_y + along_z - far
    }

    /// Whether it is in front of a plane.
    fn is_in_front_of(&self, plane: &Plane) -> bool
        ensures { IsTrue result ↔ pos 0 <ℤ value plane.now self.now }
    {
        self.value(plane) > 0
    }

    /// Whether it is in front of each of some planes.
    pub(crate) fn is_within(&self, planes: &[Plane]) -> bool
        ensures { IsTrue result ↔ All (λ g. pos 0 <ℤ value g self.now) planes.now }
    {
        planes.iter().all(|plane| self.is_in_front_of(plane))
    }
}

/// The product of a number and one of a plane, or its value, which 128 bits hold.
pub(crate) fn product(first: i64, second: i64) -> i128
    requires { unsigned_abs second ≤ 2 ^ 45 }
    ensures exact { result ≡ first *ℤ second }
    ensures size { unsigned_abs result ≤ 2 ^ 108 }
{
    i128::from(first) * i128::from(second)
}
