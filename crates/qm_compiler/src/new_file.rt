//! The form in which maps are compiled.

ghost use Rattle.std.specs.Prelude.{◌≡◌};
ghost use Rattle.qm_compiler.specs.inner.NewFile.{new_file};

use qm_bits::BitRow;
use qm_file::{Section, TreeFile};
use qm_lists::Items;
use qm_space::WORLD_EXTENT;
use qm_tree::Tree;

/// The version of tree files in which maps are compiled.
const VERSION: u8 = 2;

/// A tree, with rows or without them, and sections, in the form in which maps are compiled.
pub fn new_file(tree: Tree, rows: Option<Items<BitRow>>, sections: Items<Section>) -> TreeFile
    ensures { result ≡ new_file tree rows sections }
{
    TreeFile {
        version: VERSION,
        bound: WORLD_EXTENT.unsigned_abs(),
        tree,
        rows,
        sections,
    }
}
