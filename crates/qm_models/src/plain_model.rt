ghost use Rattle.std.specs.Prelude.{◌≡◌};
ghost use Rattle.qm_space.specs.Bounds.{world_extent};
ghost use Rattle.qm_plain.specs.PlainFile.{IsPlainFile};
ghost use Rattle.qm_model_sections.specs.MapModels.{model_found};

use qm_file::TreeFile;
use qm_half_spaces::Extents;
use qm_lists::Items;
use qm_model_file::{BoundingBox, BrushModel};
use qm_space::WORLD_EXTENT;
use qm_tree::Tree;
use std::alloc::Global;

/// The version of a plain file.
const PLAIN_VERSION: u8 = 2;

/// The model of an entity, its tree in a plain file for the cube of the world. An empty list takes no memory.
pub(crate) fn plain_model(
    alloc: Global,
    entity: u64,
    extents: &Extents,
    leaves: Vec<u64>,
    tree: Tree,
) -> BrushModel
    ensures found { model_found result ≡ record { entity = entity; box = extents.now; leaves = leaves.items; tree = tree } }
    ensures plain { IsPlainFile world_extent result.file }
{
    BrushModel {
        entity,
        bounding_box: BoundingBox {
            lo: [extents.low_x, extents.low_y, extents.low_z],
            hi: [extents.high_x, extents.high_y, extents.high_z],
        },
        leaves: Items::from_vec(leaves),
        file: TreeFile {
            version: PLAIN_VERSION,
            bound: WORLD_EXTENT.unsigned_abs(),
            tree,
            rows: None,
            sections: Items::from_vec(Vec::new(alloc)),
        },
    }
}
