//! Where lines begin.

ghost use Rattle.std.specs.Prelude.{◌<◌, length};

use crate::crossing::Crossing;
use crate::line::Line;
use qm_portal::World;

/// The portal of a world through which lines are drawn, and its anchors.
#[derive(Clone, Copy)]
pub(crate) struct FirstPortal<'a> {
    pub(crate) world: &'a World,
    pub(crate) portal: u64,
    pub(crate) anchors: &'a [[i32; 3]],
}

impl<'a> FirstPortal<'a> {
    /// The whole point near to which a line crosses its plane; the middle of the cube where it does not.
    pub(crate) fn point_on(&self, line: &Line) -> [i32; 3]
        requires { self.now.portal < length self.now.world.now.portals }
    {
        match Crossing::of_plane(line, &self.world.pane(self.portal).into) {
            None => [0; 3],
            Some(crossing) => crossing.point(line),
        }
    }
}
