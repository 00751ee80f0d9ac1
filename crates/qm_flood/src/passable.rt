ghost use Rattle.std.specs.Prelude.{◌≡◌, ◌<◌, IsTrue, ◌↔◌};
ghost use Rattle.qm_partition.specs.Counting.{leaf_count};
ghost use Rattle.qm_contacts.specs.NumberedLeaves.{is_solid};
ghost use Rattle.qm_contacts.specs.Reached.{is_passable, IsPassable};

use qm_contents::Contents;
use qm_tree::Tree;

/// Whether a leaf can be passed: solid and sky stop what comes from outside.
pub(crate) fn is_passable_leaf(tree: &Tree, leaf: u64) -> bool
    requires { leaf < leaf_count tree.now.shape }
    ensures { IsTrue result ↔ IsPassable tree.now leaf }
{
    is_passable(tree.leaf(leaf).contents)
}

fn is_passable(contents: Contents) -> bool
    ensures { result ≡ is_passable contents }
{
    match contents {
        Contents::Solid | Contents::Sky => false,
        _ => true,
    }
}

pub(crate) fn is_solid(contents: Contents) -> bool
    ensures { result ≡ is_solid contents }
{
    match contents {
        Contents::Solid => true,
        _ => false,
    }
}
