ghost use Rattle.std.specs.Prelude.{◌≡◌, ◌<◌, length};
ghost use Rattle.qm_portal.specs.Exits.{IsExitOf};

use crate::portal::Portal;
use qm_extents::Extent;

/// A portal as one of those that leave a leaf: its number, the leaf that it enters, and the extent of its pane.
#[derive(Clone, Copy)]
pub struct Exit {
    pub portal: u64,
    pub to: u64,
    pub extent: Extent,
}

impl Exit {
    /// The portal at a place as an exit.
    pub(crate) fn of(portals: &[Portal], place: u64) -> Exit
        requires { place < length portals.now }
        ensures number { result.portal ≡ place }
        ensures exit { IsExitOf portals.now result }
    {
        let portal = &portals[place as usize];
        Exit {
            portal: place,
            to: portal.to,
            extent: Extent::of(&portal.pane),
        }
    }
}
