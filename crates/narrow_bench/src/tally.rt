/// How many calls were made, how many planes they found, and how many steps blocked.
#[derive(Clone, Copy, Default)]
pub(crate) struct Tally {
    pub(crate) calls: u64,
    pub(crate) planes: u64,
    pub(crate) blocked: u64,
}

impl Tally {
    /// With one more call that found so many planes.
    pub(crate) fn with_planes(self, planes: usize) -> Tally {
        let mut tally = self;
        tally.calls = tally.calls.wrapping_add(1);
        tally.planes = tally.planes.wrapping_add(planes as u64);
        tally
    }

    /// With one more step that blocked.
    pub(crate) fn with_blocked(self) -> Tally {
        let mut tally = self;
        tally.calls = tally.calls.wrapping_add(1);
        tally.blocked = tally.blocked.wrapping_add(1);
        tally
    }

    /// With one more step that led on.
    pub(crate) fn with_step(self) -> Tally {
        self.with_planes(0)
    }
}
