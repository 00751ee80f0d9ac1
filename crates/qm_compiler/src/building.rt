//! What a map gives before the outside is looked for.

ghost use Rattle.std.specs.Prelude.{◌≡◌, ◌<◌, ◌^◌, Some, None, IfOk, IfSome, is_some, if◌then◌else◌};
ghost use Rattle.qm_grammar.specs.Valid.{IsValidMap};
ghost use Rattle.qm_solids.specs.InBook.{solids_in, IsBookOf};
ghost use Rattle.qm_partition.specs.Counting.{node_count};
ghost use Rattle.qm_partition.specs.Ways.{HasPoints};
ghost use Rattle.qm_solid_tree.specs.GivesContents.{GivesContents};
ghost use Rattle.qm_solid_tree.specs.TreeOf.{IsTreeOf};
ghost use Rattle.qm_compiler.specs.inner.Counted.{IsTreeOfBrushes};
ghost use Rattle.qm_compiler.specs.inner.KeptBrushes.{AreBrushesOf};
ghost use Rattle.qm_compiler.specs.inner.FlatCount.{flat_count};

use qm_brush::{BrushList, brushes};
use qm_build::{OpenHalves, build, build_halves};
use qm_geom::PlaneBook;
use qm_mapfile::MapFile;
use qm_tree::Tree;
use std::alloc::{AllocError, Global};
use std::thread::Threads;

/// The tree of a map, with how many brushes it was built of, and how many of them are flat.
#[derive(Drop)]
pub struct Built {
    pub tree: Tree,
    pub brushes: u64,
    pub flat: u64,
}

/// The brushes of a map, and the book that has their planes.
#[derive(Drop)]
pub struct Brushes {
    pub list: BrushList,
    pub book: PlaneBook,
}

/// Builds the tree of a map, with several threads where more than one is asked for. The brushes are let go of, unless they are to
/// be kept.
pub fn build_map<R: Threads + Sync>(
    rt: &R,
    alloc: Global,
    map: &MapFile,
    threads: u8,
    keep: bool,
) -> Result<(Built, Option<Brushes>), AllocError>
    requires valid { IsValidMap map.now }
    ensures built { IfOk result (λ made. IsTreeOfBrushes map.now made.0.tree made.0.brushes made.0.flat) }
    ensures kept { IfOk result (λ made. IfSome made.1 (AreBrushesOf map.now)) }
    ensures as_asked { IfOk result (λ made. is_some made.1 ≡ keep) }
{
    let mut book = PlaneBook::new(alloc);
    let list = brushes(alloc, map, &mut book)?;
    let tree = tree_of_brushes(rt, alloc, &list, &book, threads)?;
    let built = Built {
        tree,
        brushes: list.len(),
        flat: count_flat(&list),
    };
    Ok((built, kept_where(keep, Brushes { list, book })))
}

/// Brushes, where they are to be kept.
fn kept_where(keep: bool, brushes: Brushes) -> Option<Brushes>
    ensures { result ≡ (if keep then Some brushes else None) }
{
    if keep { Some(brushes) } else { None }
}

/// The tree of the brushes of a list, whose halves are built beside one another where more than one thread is asked for.
fn tree_of_brushes<R: Threads + Sync>(
    rt: &R,
    alloc: Global,
    list: &BrushList,
    book: &PlaneBook,
    threads: u8,
) -> Result<Tree, AllocError>
    requires filled { IsBookOf book.now list.now }
    ensures tree { IfOk result (λ tree. IsTreeOf (solids_in book.now list.now) book.now tree) }
    ensures points { IfOk result HasPoints }
    ensures contents { IfOk result (λ tree. GivesContents tree (solids_in book.now list.now)) }
    ensures few { IfOk result (λ tree. node_count tree.shape < 2 ^ 63) }
{
    if threads > 1 {
        build_halves(rt, alloc, list, book, &OpenHalves)
    } else {
        build(alloc, list, book)
    }
}

/// How many brushes of a list are flat.
fn count_flat(list: &BrushList) -> u64
    ensures { result ≡ flat_count list.now }
{
    let mut count = 0;
    for i in 0..list.len() {
        if !list.full(i) {
            count += 1;
        }
    }
    count
}
