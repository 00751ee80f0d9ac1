//! Lists of what is kept beside a winding: its corners, and the whole points near them.

ghost use Rattle.std.specs.Prelude.{◌≡◌, [], OnOk};
ghost use Rattle.qm_narrow.specs.inner.Trace.{IsTrace};

use crate::spot::Spot;
use qm_geom::Corner;
use qm_wind::Winding;
use std::alloc::{AllocError, Global};

/// Corners, and the whole points near each of them.
pub(crate) struct CornerLists {
    pub(crate) corners: Vec<Corner>,
    pub(crate) spots: Vec<Spot>,
}

// Written out, so that a function that owns some calls this where it ends: a derived drop would be proved anew at each exit.
impl Drop for CornerLists {
    fn drop(self) {
        let CornerLists {
            corners: _,
            spots: _,
        } = self;
    }
}

impl CornerLists {
    /// Lists without any memory yet.
    pub(crate) fn new(alloc: Global) -> CornerLists {
        CornerLists {
            corners: Vec::new(alloc),
            spots: Vec::new(alloc),
        }
    }

    /// Lists the corners of a winding, and the whole points near each of them, in place of what was listed.
    pub(crate) fn trace(&mut self, winding: &Winding) -> Result<(), AllocError>
        ensures { OnOk result (IsTrace winding.now self.new.corners.items self.new.spots.items) }
    {
        self.make_ready(winding.len())?;
        for i in 0..winding.len() {
            let corner = winding.corner(i);
            self.spots.push(Spot::of(&corner))?;
            self.corners.push(corner)?;
        }
        Ok(())
    }

    /// Lists what other lists have, in place of what was listed.
    pub(crate) fn copy_from(&mut self, other: &CornerLists) -> Result<(), AllocError>
        ensures corners { OnOk result (self.new.corners.items ≡ other.now.corners.items) }
        ensures spots { OnOk result (self.new.spots.items ≡ other.now.spots.items) }
    {
        self.corners.clear();
        self.spots.clear();
        self.corners.extend_from_slice(other.corners.as_slice())?;
        self.spots.extend_from_slice(other.spots.as_slice())?;
        Ok(())
    }

    /// Empties the lists, and has them take memory for so many entries each.
    fn make_ready(&mut self, count: usize) -> Result<(), AllocError>
        ensures corners { OnOk result (self.new.corners.items ≡ []) }
        ensures spots { OnOk result (self.new.spots.items ≡ []) }
    {
        self.corners.clear();
        self.spots.clear();
        self.corners.reserve(count)?;
        self.spots.reserve(count)?;
        Ok(())
    }
}
