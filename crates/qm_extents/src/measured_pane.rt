ghost use Rattle.std.specs.Prelude.{◌≡◌};
ghost use Rattle.qm_extents.specs.Extents.{IsExtentOf};

use crate::extent::Extent;
use qm_wind::Pane;
use std::marker::Model;

/// A pane with its extent.
#[derive(Drop)]
pub struct MeasuredPane<'a> {
    pane: &'a Pane,
    extent: &'a Extent,
}

impl<'a> Model for MeasuredPane<'a> {
    ghost use Rattle.qm_wind.specs.declared.pane.Pane.{Pane};
    ghost use Rattle.qm_extents.specs.Extents.{IsExtentOf};

    ghost Value = { Pane };

    ghost view = { λ m. m.pane.now };

    ghost invariant = { λ m. IsExtentOf m.pane.now m.extent.now };
}

impl<'a> MeasuredPane<'a> {
    /// A pane, with an extent of it.
    pub fn of(pane: &'a Pane, extent: &'a Extent) -> MeasuredPane<'a>
        requires { IsExtentOf pane.now extent.now }
        ensures { result ≡ pane.now }
    {
        MeasuredPane { pane, extent }
    }

    /// The pane.
    pub fn pane(&self) -> &Pane
        ensures { result.now ≡ self.now }
    {
        self.pane
    }

    /// Its extent.
    pub fn measure(&self) -> &Extent
        ensures { IsExtentOf self.now result.now }
    {
        self.extent
    }
}
