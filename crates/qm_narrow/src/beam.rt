//! Beams of lines, and what they go through.

ghost use Rattle.std.specs.Prelude.{Bool, ◌≡◌, true, All, IfSome, ◌≤ℤ◌};
ghost use Rattle.qm_space.specs.Point.{Point, whole_point, AreCoordinates};
ghost use Rattle.qm_space.specs.Cuboid.{IsInCuboid};
ghost use Rattle.qm_space.specs.Turned.{turned};
ghost use Rattle.qm_narrow.specs.inner.Beam.{IsBeamCrossing, IsCrossedAhead, IsOfBeam, SeesThrough};

use crate::crossing::Crossing;
use qm_geom::{Cuboid, Plane, Stretch};
use qm_wind::Winding;

/// All lines from a point of one cuboid to a point of another.
#[derive(Clone, Copy)]
pub(crate) struct Beam {
    pub(crate) from: Cuboid,
    pub(crate) to: Cuboid,
}

impl Beam {
    /// The lines that end in a whole point.
    pub(crate) fn ending_at(from: &Cuboid, at: [i32; 3]) -> Beam
        requires { AreCoordinates at }
        ensures from { result.from ≡ from.now }
        ensures to { IsInCuboid result.to (whole_point at) }
    {
        Beam {
            from: *from,
            to: Cuboid {
                x: Stretch::between(at[0], at[0]),
                y: Stretch::between(at[1], at[1]),
                z: Stretch::between(at[2], at[2]),
            },
        }
    }

    /// Whether each of its lines goes through a pass, and then through a target. Where it does not say so, some may all the
    /// same.
    pub(crate) fn goes_through(&self, pass: &Winding, target: &Winding) -> bool
        ensures { result ≡ true → (p q : Point) → IsOfBeam self.now p q → SeesThrough pass.now target.now p }
    {
        let near = self.faced(&pass.plane());
        let far = self.faced(&target.plane());
        match self.crossing_in(pass, &near) {
            None => false,
            Some(first) => match self.crossing_in(target, &far) {
                None => false,
                Some(_second) => first.is_ahead(self, &far.flipped()),
            },
        }
    }

    /// A plane, turned to where the lines end.
    fn faced(&self, plane: &Plane) -> Plane
        ensures { (side : Bool) × (result ≡ turned side plane.now) }
    {
        if self.to.least_value(plane) > 0 {
            *plane
        } else {
            plane.flipped()
        }
    }

    /// How the lines cross a plane, if they all do so within a winding's edges.
    fn crossing_in(&self, winding: &Winding, plane: &Plane) -> Option<Crossing>
        ensures { IfSome result (λ crossing. IsBeamCrossing plane.now self.now crossing × All (IsCrossedAhead crossing self.now) winding.now.edges) }
    {
        let crossing = Crossing::of(self, plane)?;
        if !crossing.is_within(self, winding.edges()) {
            return None;
        }
        Some(crossing)
    }
}
