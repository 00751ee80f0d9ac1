//! Numbers that look random, of which tests make worlds, points and planes.
#![tactic(auto)]

/// Numbers that look random, by a linear congruential generator of 64 bits.
#[derive(Drop)]
pub struct Random {
    state: u64,
}

impl Random {
    ghost use Rattle.std.specs.Prelude.{◌<◌};

    /// A generator that begins at a number.
    pub fn new(state: u64) -> Random {
        Random { state }
    }

    /// The next number, of 31 bits.
    pub fn next(&mut self) -> u64 {
        self.state = self
            .state
            .wrapping_mul(6_364_136_223_846_793_005)
            .wrapping_add(1_442_695_040_888_963_407);
        self.state >> 33
    }

    /// The next number, below a bound.
    pub fn below(&mut self, bound: u64) -> u64
        requires { 0 < bound }
        ensures { result < bound }
    {
        self.next() % bound
    }

    /// A whole coordinate from -reach to reach.
    pub fn coordinate(&mut self, reach: u16) -> i32 {
        self.below(2 * u64::from(reach) + 1) as i32 - i32::from(reach)
    }

    /// A point with such coordinates.
    pub fn point(&mut self, reach: u16) -> [i32; 3] {
        [
            self.coordinate(reach),
            self.coordinate(reach),
            self.coordinate(reach),
        ]
    }

    /// Three such points.
    pub fn points(&mut self, reach: u16) -> [[i32; 3]; 3] {
        [self.point(reach), self.point(reach), self.point(reach)]
    }
}
