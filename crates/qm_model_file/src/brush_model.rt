use qm_file::TreeFile;
use qm_lists::Items;
use std::marker::Model;

/// A box with whole corners: the least coordinate across each axis, and the greatest one.
#[derive(Drop)]
pub struct BoundingBox {
    pub lo: [i32; 3],
    pub hi: [i32; 3],
}

impl Model for BoundingBox {
    ghost use Rattle.std.specs.Prelude.{pos, slice_index_or};
    ghost use Rattle.qm_space.specs.Cuboid.{Cuboid};

    ghost Value = { Cuboid };

    ghost view = { λ b. record { x = record { low = slice_index_or b.lo 0 (pos 0); high = slice_index_or b.hi 0 (pos 0) }; y = record { low = slice_index_or b.lo 1 (pos 0); high = slice_index_or b.hi 1 (pos 0) }; z = record { low = slice_index_or b.lo 2 (pos 0); high = slice_index_or b.hi 2 (pos 0) } } };
}

/// The model of an entity, as a section keeps it: the entity's number, its box, the numbered leaves of the world that it touches,
/// and the file of its own tree.
#[derive(Drop)]
pub struct BrushModel {
    pub entity: u64,
    pub bounding_box: BoundingBox,
    pub leaves: Items<u64>,
    pub file: TreeFile,
}

impl Model for BrushModel {
    ghost use Rattle.std.specs.Coded.{codes};
    ghost use Rattle.qm_partition.specs.inner.TreeCode.{tree_code};
    ghost use Rattle.qm_model_layout.specs.BrushModel.{BrushModel};

    ghost Value = { BrushModel };

    ghost coded = { Prim.hlevel (codes, tree_code) };

    ghost view = { λ model. record { entity = model.entity; box = model.bounding_box; leaves = model.leaves; file = model.file } };
}
