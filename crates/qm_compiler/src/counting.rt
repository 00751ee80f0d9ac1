//! What is counted of a compiled map.

ghost use Rattle.std.specs.Prelude.{◌≡◌, count_by};
ghost use Rattle.qm_contacts.specs.NumberedLeaves.{is_numbered};
ghost use Rattle.qm_compiler.specs.inner.Finished.{IsCount};

use qm_bits::BitRow;
use qm_partition::Leaf;
use qm_portal::World;
use qm_rows::seen;
use qm_statement::Summary;

/// Counts what a world and its rows have.
pub fn count(sealed: bool, brushes: u64, flat: u64, world: &World, rows: &[BitRow]) -> Summary
    ensures { IsCount sealed brushes flat world.now rows.now result }
{
    let tree = world.tree();
    Summary {
        sealed,
        brushes,
        flat,
        planes: u64::from(tree.planes()),
        nodes: tree.nodes(),
        leaves: tree.leaves(),
        numbered: world.leaves(),
        filled: count_filled(tree.all_leaves()) as u64,
        portals: world.portals() / 2,
        seen: seen(rows),
    }
}

/// How many leaves are filled.
fn count_filled(leaves: &[Leaf]) -> usize
    ensures { result ≡ count_by (λ found. found.filled) leaves.now }
{
    let mut count = 0;
    for leaf in leaves {
        if leaf.filled {
            count += 1;
        }
    }
    count
}
