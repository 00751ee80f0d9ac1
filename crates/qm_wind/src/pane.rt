ghost use Rattle.std.specs.Prelude.{◌≡◌};
ghost use Rattle.qm_space.specs.Turned.{turned};
ghost use Rattle.qm_wind.specs.Clipped.{is_front};
ghost use Rattle.qm_wind.specs.Entered.{IsPane};

use crate::winding::{Side, Winding};
use qm_geom::Plane;

/// An opening between two leaves, with the direction in which one goes through it: `into` is the
/// winding's plane, turned so that its front is the leaf that is entered.
#[derive(Drop)]
pub struct Pane {
    pub winding: Winding,
    pub into: Plane,
}

impl Pane {
    /// The winding, entered to one side of its plane.
    pub fn entering(winding: Winding, side: Side) -> Pane
        ensures winding { result.winding ≡ winding }
        ensures into { result.into ≡ turned (is_front side) winding.plane }
        ensures pane { IsPane result }
    {
        let plane = winding.plane();
        let into = match side {
            Side::Front => plane,
            Side::Back => plane.flipped(),
        };
        Pane { winding, into }
    }
}
