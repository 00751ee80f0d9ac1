ghost use Rattle.std.specs.Prelude.{◌≡◌};
ghost use Rattle.qm_space.specs.Bounds.{world_extent};
ghost use Rattle.qm_plain.specs.PlainFile.{IsPlainFile};

use qm_file::TreeFile;
use qm_lists::Items;
use qm_space::WORLD_EXTENT;
use qm_tree::Tree;
use std::alloc::Global;

/// The version of a plain file.
const PLAIN_VERSION: u8 = 2;

/// The plain file of a tree of the world. An empty list takes no memory.
pub(crate) fn plain_tree(alloc: Global, tree: Tree) -> TreeFile
    ensures plain { IsPlainFile world_extent result }
    ensures tree { result.tree ≡ tree }
{
    TreeFile {
        version: PLAIN_VERSION,
        bound: WORLD_EXTENT.unsigned_abs(),
        tree,
        rows: None,
        sections: Items::from_vec(Vec::new(alloc)),
    }
}
