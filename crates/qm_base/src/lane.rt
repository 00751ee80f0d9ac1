//! The portals of a world, those of one plane beside one another.

ghost use Rattle.std.specs.Prelude.{◌≡◌, IfOk};
ghost use Rattle.qm_space.specs.Turned.{turned};
ghost use Rattle.qm_base.specs.inner.Lanes.{AreLanes};

use qm_geom::Plane;
use qm_portal::World;
use std::alloc::{AllocError, Global};

/// A portal, with its turned plane as a plane and whether that is turned to its front. Portals of both directions have
/// the same plane.
#[derive(Clone, Copy, PartialEq, Eq, PartialOrd, Ord)]
pub(crate) struct Lane {
    pub(crate) plane: Plane,
    pub(crate) front: bool,
    pub(crate) portal: u64,
}

impl Lane {
    /// The lane of a portal with this turned plane.
    fn of(into: &Plane, portal: u64) -> Lane
        ensures portal { result.portal ≡ portal }
        ensures into { into.now ≡ turned result.front result.plane }
    {
        let other = into.flipped();
        if other < *into {
            Lane {
                plane: *into,
                front: true,
                portal,
            }
        } else {
            Lane {
                plane: other,
                front: false,
                portal,
            }
        }
    }
}

/// The lanes of all portals, in the order of their planes.
pub(crate) fn lanes(alloc: Global, world: &World) -> Result<Vec<Lane>, AllocError>
    ensures { IfOk result (λ lanes. AreLanes world.now.portals lanes.items) }
{
    let mut lanes = lanes_in_turn(alloc, world)?;
    lanes.sort_unstable();
    Ok(lanes)
}

/// The lanes of all portals, in the order of the portals.
fn lanes_in_turn(alloc: Global, world: &World) -> Result<Vec<Lane>, AllocError>
    ensures { IfOk result (λ lanes. AreLanes world.now.portals lanes.items) }
{
    let mut lanes = Vec::new(alloc);
    for p in 0..world.portals() {
        let pane = world.pane(p);
        lanes.push(Lane::of(&pane.into, p))?;
    }
    Ok(lanes)
}
