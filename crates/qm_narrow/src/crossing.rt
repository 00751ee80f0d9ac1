//! How lines cross a plane.

ghost use Rattle.std.specs.Prelude.{◌≡◌, ◌*ℤ◌, ◌↔◌, All, IsTrue, IfSome};
ghost use Rattle.qm_space.specs.Cuboid.{least_product, greatest_product};
ghost use Rattle.qm_narrow.specs.inner.Beam.{IsBeamCrossing, IsCrossedAhead};

use crate::beam::Beam;
use qm_geom::Plane;

/// How the lines of a beam cross a plane, from behind it to its front: the least and the greatest value of the plane where they
/// begin, below 0, and where they end, above 0.
#[derive(Clone, Copy)]
pub(crate) struct Crossing {
    pub(crate) least: i64,
    pub(crate) greatest: i64,
    pub(crate) end_least: i64,
    pub(crate) end_greatest: i64,
}

impl Crossing {
    /// Those of a plane. `None` where not all of the lines cross it.
    pub(crate) fn of(beam: &Beam, plane: &Plane) -> Option<Crossing>
        ensures { IfSome result (IsBeamCrossing plane.now beam.now) }
    {
        let greatest = beam.from.greatest_value(plane);
        if greatest >= 0 {
            return None;
        }
        let end_least = beam.to.least_value(plane);
        if end_least <= 0 {
            return None;
        }
        Some(Crossing {
            least: beam.from.least_value(plane),
            greatest,
            end_least,
            end_greatest: beam.to.greatest_value(plane),
        })
    }

    /// Whether all lines cross the plane in front of each of some other planes, as far as these planes' least values tell where
    /// the lines begin and where they end.
    pub(crate) fn is_within(&self, beam: &Beam, planes: &[Plane]) -> bool
        ensures { IsTrue result ↔ All (IsCrossedAhead self.now beam.now) planes.now }
    {
        planes.iter().all(|plane| self.is_ahead(beam, plane))
    }

    /// Whether all cross it in front of another plane: the value of the other one there is that where a line begins, times this
    /// plane's where it ends, less that where it ends, times this plane's where it begins.
    pub(crate) fn is_ahead(&self, beam: &Beam, plane: &Plane) -> bool
        ensures { IsTrue result ↔ IsCrossedAhead self.now beam.now plane.now }
    {
        let _crossing = *self;
        let begin = beam.from.least_value(plane);
        let end = beam.to.least_value(plane);
        let forward = least_product(begin, self.end_least, self.end_greatest);
        let backward = greatest_product(end, self.least, self.greatest);
        forward > backward
    }
}

/// The least product of a number and one between two others.
fn least_product(number: i64, low: i64, high: i64) -> i128
    ensures { result ≡ least_product number (record { low = low; high = high }) }
{
    if number < 0 {
        product(number, high)
    } else {
        product(number, low)
    }
}

/// The greatest one.
fn greatest_product(number: i64, low: i64, high: i64) -> i128
    ensures { result ≡ greatest_product number (record { low = low; high = high }) }
{
    if number < 0 {
        product(number, low)
    } else {
        product(number, high)
    }
}

fn product(first: i64, second: i64) -> i128
    ensures { result ≡ first *ℤ second }
{
    i128::from(first) * i128::from(second)
}
