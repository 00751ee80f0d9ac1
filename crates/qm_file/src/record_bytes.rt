//! The bytes of planes, nodes, leaves and sections. All numbers are little-endian.

ghost use Rattle.std.specs.Prelude.{◌≡◌, ◌++◌, OnOk};
ghost use Rattle.qm_formats.specs.FileParts.{plane_layout, child_layout, node_layout, leaf_layout};
ghost use Rattle.qm_formats.specs.FileLayout.{section_layout};

use crate::field_bytes::{put_count, put_flag, put_i32, put_i64, put_u32};
use crate::tree_file::Section;
use qm_contents::code;
use qm_geom::Plane;
use qm_lists::Encoding;
use qm_partition::{Child, Leaf, Node};
use std::alloc::AllocError;

/// The normal as three numbers of 32 bits, and the distance in 64.
pub(crate) struct PlaneBytes;

impl Encoding for PlaneBytes {
    type Value = Plane;

    ghost can_append = { λ _. Unit {0} };

    ghost bytes_of = { plane_layout.bytes_of };

    #[tactic(auto, unfolding(qm_formats::specs::FileParts::plane_layout))]
    fn append(bytes: &mut Vec<u8>, plane: &Plane) -> Result<(), AllocError> {
        put_i32(bytes, plane.nx)?;
        put_i32(bytes, plane.ny)?;
        put_i32(bytes, plane.nz)?;
        put_i64(bytes, plane.d)?;
        Ok(())
    }
}

/// The plane's number in 32 bits, and both children.
pub(crate) struct NodeBytes;

impl Encoding for NodeBytes {
    type Value = Node;

    ghost can_append = { λ _. Unit {0} };

    ghost bytes_of = { node_layout.bytes_of };

    #[tactic(auto, unfolding(qm_formats::specs::FileParts::node_layout))]
    fn append(bytes: &mut Vec<u8>, node: &Node) -> Result<(), AllocError> {
        put_u32(bytes, node.plane)?;
        put_child(bytes, node.front)?;
        put_child(bytes, node.back)
    }
}

/// A node's number, or -(1 + number) of a leaf, in 64 bits. In two's complement the latter is the
/// complement of the leaf's number.
#[tactic(auto, unfolding(qm_formats::specs::FileParts::child_layout, qm_formats::specs::Fields::signed, qm_formats::specs::Fields::unsigned, qm_formats::specs::Fields::raw))]
fn put_child(bytes: &mut Vec<u8>, child: Child) -> Result<(), AllocError>
    ensures { OnOk result (bytes.new.items ≡ bytes.old.items ++ child_layout.bytes_of child) }
{
    let number = match child {
        Child::Node(node) => node,
        Child::Leaf(leaf) => !leaf,
    };
    bytes.extend_from_slice(&number.to_le_bytes())
}

/// The code of the contents in 32 bits, and a byte that is 1 where the leaf is filled.
pub(crate) struct LeafBytes;

impl Encoding for LeafBytes {
    type Value = Leaf;

    ghost can_append = { λ _. Unit {0} };

    ghost bytes_of = { leaf_layout.bytes_of };

    #[tactic(auto, unfolding(qm_formats::specs::FileParts::leaf_layout))]
    fn append(bytes: &mut Vec<u8>, leaf: &Leaf) -> Result<(), AllocError> {
        put_i32(bytes, code(leaf.contents))?;
        put_flag(bytes, leaf.filled)
    }
}

/// The kind in 32 bits, the number of bytes in 64, and the bytes.
pub(crate) struct SectionBytes;

impl Encoding for SectionBytes {
    type Value = Section;

    ghost can_append = { λ _. Unit {0} };

    ghost bytes_of = { (section_layout 0).bytes_of };

    #[tactic(auto, unfolding(qm_formats::specs::FileLayout::section_layout, qm_formats::specs::FileLayout::section_head_layout, qm_formats::specs::Fields::raw))]
    fn append(bytes: &mut Vec<u8>, section: &Section) -> Result<(), AllocError> {
        put_u32(bytes, section.kind)?;
        put_count(bytes, section.bytes.len())?;
        bytes.extend_from_slice(section.bytes.as_slice())
    }
}
