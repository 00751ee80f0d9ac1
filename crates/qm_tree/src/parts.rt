//! What planes, nodes and leaves have to be for a tree, whatever their numbers.

ghost use Rattle.std.specs.Prelude.{◌≡◌, ◌<◌, ◌↔◌, All, IsTrue, length};
ghost use Rattle.qm_space.specs.Reduced.{leads_positive};
ghost use Rattle.qm_partition.specs.WellMade.{IsSolidIfFilled};
ghost use Rattle.qm_partition.specs.inner.Parts.{AreParts};

use qm_contents::Contents;
use qm_geom::Plane;
use qm_partition::{Leaf, Node};

/// Whether a tree can have these planes, nodes and leaves: the planes have numbers of 32 bits and lead with positive
/// components, the nodes name planes that are there, and filled leaves are solid.
pub(crate) fn are_parts(planes: &[Plane], nodes: &[Node], leaves: &[Leaf]) -> bool
    ensures { IsTrue result ↔ AreParts planes.now nodes.now leaves.now }
{
    planes.len() <= u32::MAX as usize
        && all_lead_positive(planes)
        && all_name_planes(nodes, planes.len())
        && all_solid_if_filled(leaves)
}

fn all_lead_positive(planes: &[Plane]) -> bool
    ensures { IsTrue result ↔ All (λ h. IsTrue (leads_positive h)) planes.now }
{
    planes.iter().all(leads_positive)
}

/// Whether the first component of the normal that is not 0 is positive.
fn leads_positive(plane: &Plane) -> bool
    ensures { result ≡ leads_positive plane.now }
{
    if plane.nx != 0 {
        plane.nx > 0
    } else if plane.ny != 0 {
        plane.ny > 0
    } else {
        plane.nz > 0
    }
}

fn all_name_planes(nodes: &[Node], planes: usize) -> bool
    ensures { IsTrue result ↔ All (λ here. here.plane < planes) nodes.now }
{
    nodes.iter().all(|node| (node.plane as usize) < planes)
}

fn all_solid_if_filled(leaves: &[Leaf]) -> bool
    ensures { IsTrue result ↔ All IsSolidIfFilled leaves.now }
{
    leaves
        .iter()
        .all(|leaf| !leaf.filled || leaf.contents == Contents::Solid)
}
