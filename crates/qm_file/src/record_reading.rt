//! Planes, nodes and leaves, read at a place, and lists of them.

ghost use Rattle.std.specs.Prelude.{◌≡◌, ◌<◌, ◌==◌, true, false, length, IfOk, MatchOption};
ghost use Rattle.qm_formats.specs.Layout.{Layout, many};
ghost use Rattle.qm_contents.specs.Codes.{contents_of_code};
ghost use Rattle.qm_formats.specs.FileParts.{FileFaultKind, plane_layout, child_layout, node_layout, is_leaf, leaf_layout};
ghost use Rattle.qm_file.specs.Answers.{IsFaultOfFile, AnswersTreeFile};

use crate::field_reading::{i32_at, i64_at, u8_at, u32_at};
use crate::file_fault::FileFault;
use crate::plane_form::is_plane;
use qm_contents::{Contents, of_code};
use qm_geom::Plane;
use qm_partition::{Child, Leaf, Node};
use std::alloc::Global;

/// How the records of a type are read. A record is checked when all its bytes are there.
pub(crate) trait Record {
    /// What is read.
    type Value: Drop;

    /// How it stands in a file.
    ghost layout: { Layout FileFaultKind Self.Value };

    /// How many bytes it has.
    fn length() -> usize
        ensures { 0 < result };

    /// The record at a place, and where it ends.
    fn read_at(bytes: &[u8], at: usize) -> Result<(Self::Value, usize), FileFault>
        ensures { AnswersTreeFile (λ read. read.0) (λ read. read.1) result (layout.read bytes.now at) };
}

/// So many records one behind the other, from a place on, and where they end. No room is made for bytes that are not there.
pub(crate) fn read_all<R: Record>(
    alloc: Global,
    bytes: &[u8],
    at: usize,
    count: u64,
) -> Result<(Vec<R::Value>, usize), FileFault>
    ensures gives { AnswersTreeFile (λ read. read.0.items) (λ read. read.1) result ((many R.layout count).read bytes.now at) }
    ensures counted { IfOk result (λ read. length read.0.items ≡ count) }
{
    let mut records = Vec::with_capacity(alloc, room_for(bytes, at, count, R::length()))?;
    let mut next = at;
    for _ in 0..count {
        let (record, after) = R::read_at(bytes, next)?;
        records.push(record)?;
        next = after;
    }
    Ok((records, next))
}

/// How many of so many parts the bytes from a place on have, at most, where each has at least so many bytes.
pub(crate) fn room_for(bytes: &[u8], at: usize, count: u64, length: usize) -> usize
    requires { 0 < length }
{
    let most = bytes.len().saturating_sub(at) / length;
    count.min(most as u64) as usize
}

/// Planes in lowest terms, that lead with a positive component and are not too large.
pub(crate) struct PlaneRecord;

impl Record for PlaneRecord {
    type Value = Plane;

    ghost layout = { plane_layout };

    fn length() -> usize {
        20
    }

    #[tactic(auto, unfolding(qm_formats::specs::FileParts::plane_layout))]
    fn read_at(bytes: &[u8], at: usize) -> Result<(Plane, usize), FileFault> {
        let (nx, next) = i32_at(bytes, at)?;
        let (ny, next) = i32_at(bytes, next)?;
        let (nz, next) = i32_at(bytes, next)?;
        let (d, next) = i64_at(bytes, next)?;
        if !is_plane(nx, ny, nz, d) {
            return Err(FileFault::PlaneForm { offset: at as u64 });
        }
        Ok((Plane { nx, ny, nz, d }, next))
    }
}

/// Nodes, whose children are numbers of nodes or of leaves.
pub(crate) struct NodeRecord;

impl Record for NodeRecord {
    type Value = Node;

    ghost layout = { node_layout };

    fn length() -> usize {
        20
    }

    #[tactic(auto, unfolding(qm_formats::specs::FileParts::node_layout))]
    fn read_at(bytes: &[u8], at: usize) -> Result<(Node, usize), FileFault> {
        let (plane, next) = u32_at(bytes, at)?;
        let (front, next) = child_at(bytes, next)?;
        let (back, next) = child_at(bytes, next)?;
        Ok((Node { plane, front, back }, next))
    }
}

/// A child: the number of a node, or -(1 + the number of a leaf).
#[tactic(auto, unfolding(qm_formats::specs::FileParts::child_layout))]
fn child_at(bytes: &[u8], at: usize) -> Result<(Child, usize), FileFault>
    ensures { AnswersTreeFile (λ read. read.0) (λ read. read.1) result (child_layout.read bytes.now at) }
{
    let (number, next) = i64_at(bytes, at)?;
    if number < 0 {
        Ok((Child::Leaf((-(number + 1)) as u64), next))
    } else {
        Ok((Child::Node(number as u64), next))
    }
}

/// Leaves, filled ones solid.
pub(crate) struct LeafRecord;

impl Record for LeafRecord {
    type Value = Leaf;

    ghost layout = { leaf_layout };

    fn length() -> usize {
        5
    }

    #[tactic(auto, unfolding(qm_formats::specs::FileParts::leaf_layout, qm_formats::specs::FileParts::is_leaf))]
    fn read_at(bytes: &[u8], at: usize) -> Result<(Leaf, usize), FileFault> {
        let (code, next) = i32_at(bytes, at)?;
        let (filled, next) = u8_at(bytes, next)?;
        match leaf_of(code, filled) {
            Some(leaf) => Ok((leaf, next)),
            None => Err(FileFault::LeafForm { offset: at as u64 }),
        }
    }
}

/// The leaf of a code of contents and a flag.
#[tactic(auto, unfolding(qm_formats::specs::FileParts::is_leaf))]
fn leaf_of(code: i32, filled: u8) -> Option<Leaf>
    ensures { MatchOption result (is_leaf (code, filled) ≡ false) (λ leaf. (is_leaf (code, filled) ≡ true) × (leaf ≡ record { contents = contents_of_code code; filled = filled == 1 })) }
{
    let contents = of_code(code)?;
    if filled > 1 || (filled == 1 && contents != Contents::Solid) {
        return None;
    }
    Some(Leaf {
        contents,
        filled: filled == 1,
    })
}
