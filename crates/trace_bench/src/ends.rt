ghost use Rattle.std.specs.Prelude.{◌≤◌, unsigned_abs};

use qm_geom::Point;

/// How many parts of a map unit coordinates are given in.
const PARTS_OF_UNIT: i64 = 1_000_000;

/// Ends of segments that look random, by a linear congruential generator of 64 bits.
#[derive(Drop)]
pub(crate) struct Ends {
    state: u64,
    reach: u16,
}

impl Ends {
    /// Ends that lie at most so many map units from the middle, across each axis.
    pub(crate) fn new(reach: u16) -> Ends {
        Ends { state: 1, reach }
    }

    /// The next end.
    pub(crate) fn next(&mut self) -> Point
        ensures { unsigned_abs result.w ≤ 1000000 }
    {
        Point {
            x: self.coordinate(),
            y: self.coordinate(),
            z: self.coordinate(),
            w: PARTS_OF_UNIT,
        }
    }

    /// The next coordinate, in millionths.
    fn coordinate(&mut self) -> i64 {
        self.state = self
            .state
            .wrapping_mul(6_364_136_223_846_793_005)
            .wrapping_add(1_442_695_040_888_963_407);
        let farthest = u64::from(self.reach) * PARTS_OF_UNIT as u64;
        ((self.state >> 16) % (2 * farthest + 1)) as i64 - farthest as i64
    }
}
