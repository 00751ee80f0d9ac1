use qm_wind::Clip;

/// How many windings were left whole, gone and cut, and how many corners those that were cut have.
#[derive(Clone, Copy, Default)]
pub(crate) struct Tally {
    pub(crate) whole: u64,
    pub(crate) gone: u64,
    pub(crate) cut: u64,
    pub(crate) corners: u64,
}

impl Tally {
    /// With one more.
    pub(crate) fn with(self, clip: &Clip) -> Tally {
        match clip {
            Clip::Whole => self.with_whole(),
            Clip::Gone => self.with_gone(),
            Clip::Cut(part) => self.with_cut(part.len() as u64),
        }
    }

    pub(crate) fn with_whole(self) -> Tally {
        let mut tally = self;
        tally.whole = tally.whole.wrapping_add(1);
        tally
    }

    pub(crate) fn with_gone(self) -> Tally {
        let mut tally = self;
        tally.gone = tally.gone.wrapping_add(1);
        tally
    }

    pub(crate) fn with_cut(self, corners: u64) -> Tally {
        let mut tally = self;
        tally.cut = tally.cut.wrapping_add(1);
        tally.corners = tally.corners.wrapping_add(corners);
        tally
    }
}
