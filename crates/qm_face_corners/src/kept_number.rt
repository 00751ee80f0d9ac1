ghost use Rattle.std.specs.Prelude.{◌≡◌};

use qm_geom::Plane;

/// A plane and its number.
#[derive(Clone, Copy)]
pub(crate) struct KeptNumber {
    pub(crate) plane: Plane,
    pub(crate) number: i64,
}

impl KeptNumber {
    pub(crate) fn own_number(&self) -> i64
        ensures { result ≡ self.now.number }
    {
        self.number
    }
}
