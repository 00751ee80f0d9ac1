ghost use Rattle.std.specs.Prelude.{◌≡◌, ◌++◌, IfOk, OnOk, count_by};
ghost use Rattle.std.specs.List.{flat_map};
ghost use Rattle.qm_contacts.specs.NumberedLeaves.{is_numbered};
ghost use Rattle.qm_formats.specs.FileLayout.{bound_layout, section_count_layout, file_header_layout, section_layout, header_of, file_bytes};

use crate::field_bytes::{put_count, put_flag, put_magic, put_small_count, put_u32};
use crate::record_bytes::{LeafBytes, NodeBytes, PlaneBytes, SectionBytes};
use crate::row_bytes::put_rows;
use crate::tree_file::{Section, TreeFile};
use qm_contents::Contents;
use qm_lists::append_all;
use qm_partition::Leaf;
use std::alloc::{AllocError, Global};

/// The most bytes before the planes, and the bytes of each plane, of each node and of each leaf.
const HEADER_LENGTH: usize = 49;

const PLANE_LENGTH: usize = 20;

const NODE_LENGTH: usize = 20;

const LEAF_LENGTH: usize = 5;

/// The bytes of a tree file.
pub fn encode(alloc: Global, file: &TreeFile) -> Result<Vec<u8>, AllocError>
    ensures { IfOk result (λ bytes. bytes.items ≡ file_bytes file.now) }
{
    let planes = file.tree.all_planes();
    let nodes = file.tree.all_nodes();
    let leaves = file.tree.all_leaves();
    let room = length_without_rows(planes.len(), nodes.len(), leaves.len());
    let mut bytes = Vec::with_capacity(alloc, room)?;
    put_header(&mut bytes, file)?;
    append_all::<PlaneBytes>(&mut bytes, planes)?;
    append_all::<NodeBytes>(&mut bytes, nodes)?;
    append_all::<LeafBytes>(&mut bytes, leaves)?;
    put_rows(alloc, &mut bytes, &file.rows)?;
    put_sections(&mut bytes, file.sections.as_slice())?;
    Ok(bytes)
}

/// How many bytes stand before the rows of a file of so many planes, nodes and leaves, at most. A number that is too large
/// for memory stays so.
fn length_without_rows(planes: usize, nodes: usize, leaves: usize) -> usize {
    HEADER_LENGTH
        .saturating_add(planes.saturating_mul(PLANE_LENGTH))
        .saturating_add(nodes.saturating_mul(NODE_LENGTH))
        .saturating_add(leaves.saturating_mul(LEAF_LENGTH))
}

#[tactic(auto, unfolding(qm_formats::specs::FileLayout::file_header_layout))]
fn put_header(bytes: &mut Vec<u8>, file: &TreeFile) -> Result<(), AllocError>
    ensures { OnOk result (bytes.new.items ≡ bytes.old.items ++ file_header_layout.bytes_of (header_of file.now)) }
{
    let leaves = file.tree.all_leaves();
    put_magic(bytes, file.version)?;
    put_count(bytes, file.tree.all_planes().len())?;
    put_count(bytes, file.tree.all_nodes().len())?;
    put_count(bytes, leaves.len())?;
    put_count(bytes, count_numbered(leaves))?;
    put_flag(bytes, file.rows.is_some())?;
    put_bound(bytes, file.version, file.bound)?;
    put_section_count(bytes, file.version, file.sections.len())?;
    Ok(())
}

/// Appends half the size of the world's cube, which version 1 does not say.
#[tactic(auto, unfolding(qm_formats::specs::FileLayout::bound_layout, qm_formats::specs::Fields::unwritten))]
fn put_bound(bytes: &mut Vec<u8>, version: u8, bound: u32) -> Result<(), AllocError>
    ensures { OnOk result (bytes.new.items ≡ bytes.old.items ++ (bound_layout version).bytes_of bound) }
{
    if version == 1 {
        return Ok(());
    }
    put_u32(bytes, bound)
}

/// Appends how many sections there are, of which version 1 has none.
#[tactic(auto, unfolding(qm_formats::specs::FileLayout::section_count_layout, qm_formats::specs::Fields::unwritten))]
fn put_section_count(bytes: &mut Vec<u8>, version: u8, count: usize) -> Result<(), AllocError>
    ensures { OnOk result (bytes.new.items ≡ bytes.old.items ++ (section_count_layout version).bytes_of count) }
{
    if version == 1 {
        return Ok(());
    }
    put_small_count(bytes, count)
}

/// Appends the sections.
fn put_sections(bytes: &mut Vec<u8>, sections: &[Section]) -> Result<(), AllocError>
    ensures { OnOk result (bytes.new.items ≡ bytes.old.items ++ flat_map (section_layout 0).bytes_of sections.now) }
{
    append_all::<SectionBytes>(bytes, sections)
}

/// How many leaves are not solid.
pub(crate) fn count_numbered(leaves: &[Leaf]) -> usize
    ensures { result ≡ count_by is_numbered leaves.now }
{
    leaves
        .iter()
        .filter(|leaf| leaf.contents != Contents::Solid)
        .count()
}
