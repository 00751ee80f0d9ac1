ghost use Rattle.std.specs.Prelude.{◌≡◌};
ghost use Rattle.qm_surface.specs.Boundary.{is_rock, is_boundary};

use qm_contents::Contents;
use qm_tree::Leaf;

/// Where rock touches a leaf that is not solid: the plane, whether the rock is in front of it, and that leaf.
#[derive(Clone, Copy)]
pub(crate) struct Boundary {
    pub(crate) plane: u32,
    pub(crate) side: bool,
    pub(crate) leaf: u64,
}

/// Whether a leaf is rock: solid, and not filled.
fn is_rock(leaf: &Leaf) -> bool
    ensures { result ≡ is_rock leaf.now }
{
    leaf.contents == Contents::Solid && !leaf.filled
}

/// Whether a leaf is rock, and another one is not solid.
pub(crate) fn is_boundary(rock: &Leaf, other: &Leaf) -> bool
    ensures { result ≡ is_boundary rock.now other.now }
{
    is_rock(rock) && other.contents != Contents::Solid
}
