//! The planes, nodes and leaves of a file, and the tree that they make.

ghost use Rattle.std.specs.Prelude.{◌≡◌, ◌+◌, ◌↔◌, nat_lt, length, IfOk, IsTrue};
ghost use Rattle.std.specs.List.{list_all};
ghost use Rattle.qm_partition.specs.Arrays.{tree_of};
ghost use Rattle.qm_partition.specs.WellMade.{IsMadeOf};
ghost use Rattle.qm_formats.specs.Layout.{got};
ghost use Rattle.qm_formats.specs.FileLayout.{file_header_layout, are_ordered, planes_layout, nodes_layout, leaves_layout, tree_layout};
ghost use Rattle.qm_file.specs.Answers.{IsFaultOfFile, AnswersTreeFile};
ghost use Rattle.qm_file.specs.inner.SeenHeader.{seen_header};

use crate::file_fault::FileFault;
use crate::header_reading::Header;
use crate::record_reading::{LeafRecord, NodeRecord, PlaneRecord, read_all};
use crate::writing::count_numbered;
use qm_geom::Plane;
use qm_partition::{Leaf, Node};
use qm_tree::{NotATree, Tree, are_numbered};
use std::alloc::{AllocError, Global};

/// The place of the count of numbered leaves.
const NUMBERED_PLACE: u64 = 32;

/// The tree of a file of this header, and where it ends.
#[tactic(auto, unfolding(qm_formats::specs::FileLayout::tree_layout, qm_formats::specs::FileLayout::planes_layout))]
pub(crate) fn tree_at(
    alloc: Global,
    bytes: &[u8],
    at: usize,
    header: &Header,
) -> Result<(Tree, usize), FileFault>
    requires { file_header_layout.read bytes.now 0 ≡ got (seen_header header.now) at }
    ensures { AnswersTreeFile (λ read. read.0) (λ read. read.1) result ((tree_layout (seen_header header.now)).read bytes.now at) }
{
    let (planes, next) = read_all::<PlaneRecord>(alloc, bytes, at, header.planes)?;
    let (nodes, next) = nodes_at(alloc, bytes, next, header)?;
    let (leaves, next) = leaves_at(alloc, bytes, next, header)?;
    let tree = tree_of(alloc, planes, nodes, leaves)?;
    Ok((tree, next))
}

/// The nodes of a file of this header, and where they end.
#[tactic(auto, unfolding(qm_formats::specs::FileLayout::nodes_layout))]
fn nodes_at(
    alloc: Global,
    bytes: &[u8],
    at: usize,
    header: &Header,
) -> Result<(Vec<Node>, usize), FileFault>
    requires { header.now.leaves ≡ header.now.nodes + 1 }
    ensures { AnswersTreeFile (λ read. read.0.items) (λ read. read.1) result ((nodes_layout (seen_header header.now)).read bytes.now at) }
{
    let (nodes, next) = read_all::<NodeRecord>(alloc, bytes, at, header.nodes)?;
    if !are_ordered(alloc, &nodes, header.planes, header.leaves)? {
        return Err(FileFault::NodeOrder { offset: at as u64 });
    }
    Ok((nodes, next))
}

/// Whether nodes name planes of so many, and are numbered as those of a tree with so many leaves.
#[tactic(auto, unfolding(qm_formats::specs::FileLayout::are_ordered))]
fn are_ordered(alloc: Global, nodes: &[Node], planes: u64, leaves: u64) -> Result<bool, AllocError>
    requires { leaves ≡ length nodes.now + 1 }
    ensures { IfOk result (λ ordered. ordered ≡ are_ordered planes nodes.now) }
{
    if !name_planes(nodes, planes) {
        return Ok(false);
    }
    are_numbered(alloc, nodes, leaves)
}

/// Whether each node names a plane of so many.
fn name_planes(nodes: &[Node], planes: u64) -> bool
    ensures { result ≡ list_all (λ here. nat_lt here.plane planes) nodes.now }
{
    nodes.iter().all(|node| u64::from(node.plane) < planes)
}

/// The leaves of a file of this header, and where they end.
#[tactic(auto, unfolding(qm_formats::specs::FileLayout::leaves_layout))]
fn leaves_at(
    alloc: Global,
    bytes: &[u8],
    at: usize,
    header: &Header,
) -> Result<(Vec<Leaf>, usize), FileFault>
    ensures { AnswersTreeFile (λ read. read.0.items) (λ read. read.1) result ((leaves_layout (seen_header header.now)).read bytes.now at) }
{
    let (leaves, next) = read_all::<LeafRecord>(alloc, bytes, at, header.leaves)?;
    if count_numbered(&leaves) as u64 != header.numbered {
        return Err(FileFault::Counts {
            offset: NUMBERED_PLACE,
        });
    }
    Ok((leaves, next))
}

/// The tree of parts that a tree has.
fn tree_of(
    alloc: Global,
    planes: Vec<Plane>,
    nodes: Vec<Node>,
    leaves: Vec<Leaf>,
) -> Result<Tree, AllocError>
    requires { IsMadeOf (tree_of planes.items nodes.items leaves.items) planes.items nodes.items leaves.items }
    ensures { IfOk result (λ tree. tree ≡ tree_of planes.items nodes.items leaves.items) }
{
    match Tree::of(alloc, planes, nodes, leaves) {
        Ok(tree) => Ok(tree),
        Err(NotATree::Memory) => Err(AllocError),
        Err(NotATree::NotNumbered) => {
            prove!(false);
            Err(AllocError)
        }
    }
}
