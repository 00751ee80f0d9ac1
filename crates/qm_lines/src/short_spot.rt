//! Points whose numerators and denominator are short.

ghost use Rattle.std.specs.Prelude.{◌≡◌, ◌≤◌, ◌*ℤ◌, ◌^◌, pos, ◌<ℤ◌, ◌↔◌, All, IsTrue, unsigned_abs};
ghost use Rattle.qm_space.specs.Bounds.{normal_bound, distance_bound};
ghost use Rattle.qm_space.specs.Plane.{value};

use qm_geom::Plane;
use std::marker::Model;

/// A point, as three numerators over one denominator, so short that 64 bits hold the value of each plane there.
#[derive(Clone, Copy)]
pub(crate) struct ShortSpot {
    pub(crate) x: i64,
    pub(crate) y: i64,
    pub(crate) z: i64,
    pub(crate) w: i64,
}

impl Model for ShortSpot {
    ghost use Rattle.qm_space.specs.Point.{Point};
    ghost use Rattle.qm_lines.specs.inner.Crossing.{IsShortSpot};

    ghost Value = { Point };

    ghost view = { λ s. record { x = s.x; y = s.y; z = s.z; w = s.w } };

    ghost invariant = { λ s. IsShortSpot (record { x = s.x; y = s.y; z = s.z; w = s.w }) };

    ghost inverse = { λ s. record { x = s.x; y = s.y; z = s.z; w = s.w } };
}

impl ShortSpot {
    /// The value of a plane there.
    fn value(&self, plane: &Plane) -> i64
        ensures { result ≡ value plane.now self.now }
    {
        let along_x = along(self.x, plane.nx);
        let along_y = along(self.y, plane.ny);
        let along_z = along(self.z, plane.nz);
        let far = far(self.w, plane.d);
        along_x + along_y + along_z - far
    }

    /// Whether it is in front of a plane.
    fn is_in_front_of(&self, plane: &Plane) -> bool
        ensures { IsTrue result ↔ pos 0 <ℤ value plane.now self.now }
    {
        self.value(plane) > 0
    }

    /// Whether it is in front of each of some planes.
    pub(crate) fn is_within(&self, planes: &[Plane]) -> bool
        ensures { IsTrue result ↔ All (λ g. pos 0 <ℤ value g self.now) planes.now }
    {
        planes.iter().all(|plane| self.is_in_front_of(plane))
    }
}

/// A numerator times a component of a normal.
fn along(numerator: i64, component: i32) -> i64
    requires numerator { unsigned_abs numerator ≤ 2 ^ 33 }
    requires component { unsigned_abs component ≤ normal_bound }
    ensures exact { result ≡ numerator *ℤ component }
    ensures size { unsigned_abs result ≤ 2 ^ 59 }
{
    numerator * i64::from(component)
}

/// A denominator times a distance.
fn far(denominator: i64, distance: i64) -> i64
    requires denominator { unsigned_abs denominator ≤ 2 ^ 18 }
    requires distance { unsigned_abs distance ≤ distance_bound }
    ensures exact { result ≡ denominator *ℤ distance }
    ensures size { unsigned_abs result ≤ 2 ^ 62 }
{
    denominator * distance
}
