//! Whole points near corners.

ghost use Rattle.std.specs.Prelude.{◌≡◌, ◌≤◌, ◌*ℤ◌, unsigned_abs};
ghost use Rattle.qm_space.specs.Bounds.{whole_normal_bound};
ghost use Rattle.qm_space.specs.Cube.{IsInClosedCube};
ghost use Rattle.qm_space.specs.Point.{Point, IsCoordinate, AreCoordinates};
ghost use Rattle.qm_space.specs.Cuboid.{IsInCuboid, least_product, greatest_product};
ghost use Rattle.qm_space.specs.Coordinates.{HasSmallCoordinates};
ghost use Rattle.qm_geom.specs.Vectors.{HasSmallComponents};
ghost use Rattle.qm_narrow.specs.inner.Look.{look_product_bound, look_bound, least_between};
ghost use Rattle.qm_narrow.specs.inner.Trace.{IsSpotOf};

use crate::fine::{fine_at, fine_of};
use crate::near::Near;
use crate::normal::sum;
use crate::reach::Reach;
use crate::sizes::dot;
use crate::whole::whole_corner;
use qm_geom::{Corner, Cuboid, Stretch, Vector};

/// The whole points near a corner: the nearest one, and the coordinates rounded down and up. Where it is not loose, the corner
/// is a whole point, and these are that one. Beside them stand its coordinates in fine units.
#[derive(Clone, Copy)]
pub(crate) struct Spot {
    pub(crate) nearest: [i32; 3],
    pub(crate) below: [i32; 3],
    pub(crate) above: [i32; 3],
    pub(crate) loose: bool,
    pub(crate) fine: Vector,
}

impl Spot {
    ghost use Rattle.qm_narrow.specs.inner.Trace.{IsSpotOf};
    ghost use Rattle.qm_geom.specs.Vectors.{HasSmallComponents};
    ghost use Rattle.qm_geom.specs.Vectors.{dot};
    ghost use Rattle.qm_narrow.specs.inner.Look.{least_along, greatest_along};
    ghost use Rattle.qm_narrow.specs.inner.Turn.{LiesAround, size_bound};

    /// Those of a corner.
    pub(crate) fn of(corner: &Corner) -> Spot
        requires small { HasSmallCoordinates corner.now }
        requires in_cube { IsInClosedCube corner.now }
        ensures { IsSpotOf corner.now result }
    {
        if let Some(at) = whole_corner(corner) {
            return Spot {
                nearest: at,
                below: at,
                above: at,
                loose: false,
                fine: fine_at(&at),
            };
        }
        divided(corner)
    }

    /// All points between those below and above.
    pub(crate) fn cuboid(&self) -> Cuboid
        requires below_in { AreCoordinates self.now.below }
        requires above_in { AreCoordinates self.now.above }
        ensures { (p : Point) → IsSpotOf p self.now → IsInCuboid result p }
    {
        Cuboid {
            x: Stretch::between(self.below[0], self.above[0]),
            y: Stretch::between(self.below[1], self.above[1]),
            z: Stretch::between(self.below[2], self.above[2]),
        }
    }

    /// The least that a normal has along a point between those below and above.
    pub(crate) fn least(&self, normal: &Vector) -> i64
        requires below_in { AreCoordinates self.now.below }
        requires above_in { AreCoordinates self.now.above }
        requires small { HasSmallComponents normal.now whole_normal_bound }
        ensures exact { result ≡ least_along normal.now self.now }
        ensures size { unsigned_abs result ≤ look_bound }
    {
        least_between(normal, &self.below, &self.above)
    }

    /// The greatest that it has.
    pub(crate) fn greatest(&self, normal: &Vector) -> i64
        requires below_in { AreCoordinates self.now.below }
        requires above_in { AreCoordinates self.now.above }
        requires small { HasSmallComponents normal.now whole_normal_bound }
        ensures exact { result ≡ greatest_along normal.now self.now }
        ensures size { unsigned_abs result ≤ look_bound }
    {
        least_between(normal, &self.above, &self.below)
    }

    /// The greatest that it has, where the least is known: the same one where the corner is a whole point.
    pub(crate) fn greatest_from(&self, least: i64, normal: &Vector) -> i64
        requires spot { (p : Point) × IsSpotOf p self.now }
        requires small { HasSmallComponents normal.now whole_normal_bound }
        requires least { least ≡ least_along normal.now self.now }
        requires least_small { unsigned_abs least ≤ look_bound }
        ensures exact { result ≡ greatest_along normal.now self.now }
        ensures size { unsigned_abs result ≤ look_bound }
    {
        if self.loose {
            return self.greatest(normal);
        }
        least
    }

    /// What a normal has along the corner, in fine units, with so much slack to both sides.
    pub(crate) fn fine_reach(&self, normal: &Vector, slack: i64) -> Reach
        requires spot { (p : Point) × IsSpotOf p self.now }
        requires small { HasSmallComponents normal.now whole_normal_bound }
        requires slack_small { unsigned_abs slack ≤ size_bound }
        ensures { LiesAround (dot normal.now self.now.fine) slack result }
    {
        Reach::around(dot(normal, &self.fine), slack)
    }
}

/// Those of a corner, by a division for each coordinate.
fn divided(corner: &Corner) -> Spot
    requires small { HasSmallCoordinates corner.now }
    requires in_cube { IsInClosedCube corner.now }
    ensures { IsSpotOf corner.now result }
{
    let (x, weight) = corner.fraction(0);
    let (y, _) = corner.fraction(1);
    let (z, _) = corner.fraction(2);
    let near_x = Near::of(x, weight);
    let near_y = Near::of(y, weight);
    let near_z = Near::of(z, weight);
    Spot {
        nearest: [near_x.nearest, near_y.nearest, near_z.nearest],
        below: [near_x.below, near_y.below, near_z.below],
        above: [near_x.above, near_y.above, near_z.above],
        loose: true,
        fine: fine_of(corner),
    }
}

/// The sum of what a normal has along each axis of the one point, or of the other one where its component is below 0.
fn least_between(normal: &Vector, low: &[i32; 3], high: &[i32; 3]) -> i64
    requires low_in { AreCoordinates low.now }
    requires high_in { AreCoordinates high.now }
    requires small { HasSmallComponents normal.now whole_normal_bound }
    ensures exact { result ≡ least_between normal.now low.now high.now }
    ensures size { unsigned_abs result ≤ look_bound }
{
    let products = Vector {
        x: least_product(normal.x, low[0], high[0]),
        y: least_product(normal.y, low[1], high[1]),
        z: least_product(normal.z, low[2], high[2]),
    };
    sum(&products)
}

/// A component times the one coordinate, or times the other one where it is below 0.
fn least_product(component: i64, low: i32, high: i32) -> i64
    requires component_small { unsigned_abs component ≤ whole_normal_bound }
    requires low_in { IsCoordinate low }
    requires high_in { IsCoordinate high }
    ensures exact { result ≡ least_product component (record { low = low; high = high }) }
    ensures size { unsigned_abs result ≤ look_product_bound }
{
    if component < 0 {
        times(component, high)
    } else {
        times(component, low)
    }
}

fn times(component: i64, coordinate: i32) -> i64
    requires component_small { unsigned_abs component ≤ whole_normal_bound }
    requires in_cube { IsCoordinate coordinate }
    ensures exact { result ≡ component *ℤ coordinate }
    ensures size { unsigned_abs result ≤ look_product_bound }
{
    component * i64::from(coordinate)
}
