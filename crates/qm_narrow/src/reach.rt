//! What whole points near a winding's corners tell of the distances of planes with a normal.

ghost use Rattle.std.specs.Prelude.{◌≡◌, ◌≤◌, unsigned_abs};
ghost use Rattle.std.specs.Int.{int_max, int_min};
ghost use Rattle.qm_space.specs.Bounds.{whole_normal_bound};
ghost use Rattle.qm_space.specs.Point.{AreCoordinates};
ghost use Rattle.qm_geom.specs.Vectors.{HasSmallComponents};
ghost use Rattle.qm_narrow.specs.inner.Look.{least_along, greatest_along};
ghost use Rattle.qm_narrow.specs.inner.Turn.{LiesAround, dot_bound, slack_bound};

use crate::spot::Spot;
use qm_geom::Vector;

/// From which distance on no corner may be in front, and up to which none may be behind.
#[derive(Clone, Copy)]
pub(crate) struct Reach {
    pub(crate) low: i64,
    pub(crate) high: i64,
}

impl Reach {
    /// By one corner.
    pub(crate) fn of(spot: &Spot, normal: &Vector) -> Reach
        requires below_in { AreCoordinates spot.now.below }
        requires above_in { AreCoordinates spot.now.above }
        requires small { HasSmallComponents normal.now whole_normal_bound }
        ensures low { result.low ≡ least_along normal.now spot.now }
        ensures high { result.high ≡ greatest_along normal.now spot.now }
    {
        Reach {
            low: spot.least(normal),
            high: spot.greatest(normal),
        }
    }

    /// By one corner more.
    pub(crate) fn with(&self, spot: &Spot, normal: &Vector) -> Reach
        requires below_in { AreCoordinates spot.now.below }
        requires above_in { AreCoordinates spot.now.above }
        requires small { HasSmallComponents normal.now whole_normal_bound }
        ensures low { result.low ≡ int_max self.now.low (least_along normal.now spot.now) }
        ensures high { result.high ≡ int_min self.now.high (greatest_along normal.now spot.now) }
    {
        Reach {
            low: self.low.max(spot.least(normal)),
            high: self.high.min(spot.greatest(normal)),
        }
    }

    /// From so much below a distance to so much above it.
    pub(crate) fn around(distance: i64, slack: i64) -> Reach
        requires distance_small { unsigned_abs distance ≤ dot_bound }
        requires slack_small { unsigned_abs slack ≤ slack_bound }
        ensures { LiesAround distance slack result }
    {
        Reach {
            low: distance - slack,
            high: distance + slack,
        }
    }

    /// By both, where each is that of some corners.
    pub(crate) fn and(&self, other: &Reach) -> Reach
        ensures low { result.low ≡ int_max self.now.low other.now.low }
        ensures high { result.high ≡ int_min self.now.high other.now.high }
    {
        Reach {
            low: self.low.max(other.low),
            high: self.high.min(other.high),
        }
    }
}
