use qm_bits::BitRow;
use qm_lists::Items;
use qm_tree::Tree;
use std::marker::Model;

/// A part of a tree file for later use: its kind, and its bytes, which are kept as they are.
#[derive(Drop)]
pub struct Section {
    pub kind: u32,
    pub bytes: Items<u8>,
}

impl Model for Section {
    ghost use Rattle.qm_formats.specs.TreeFile.{Section};

    ghost Value = { Section };

    ghost view = { λ section. record { kind = section.kind; bytes = section.bytes } };
}

/// What a tree file says: its version, half the size of its world's cube, a tree, where they are there the rows of its
/// numbered leaves, in the order of the leaves, and sections.
#[derive(Drop)]
pub struct TreeFile {
    pub version: u8,
    pub bound: u32,
    pub tree: Tree,
    pub rows: Option<Items<BitRow>>,
    pub sections: Items<Section>,
}

impl Model for TreeFile {
    ghost use Rattle.std.specs.Coded.{codes};
    ghost use Rattle.qm_partition.specs.inner.TreeCode.{tree_code};
    ghost use Rattle.qm_formats.specs.TreeFile.{TreeFile};

    ghost Value = { TreeFile };

    ghost coded = { Prim.hlevel (codes, tree_code) };

    ghost view = { λ file. record { version = file.version; bound = file.bound; tree = file.tree; rows = file.rows; sections = file.sections } };
}
