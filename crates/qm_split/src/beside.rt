//! What the brushes of a list are to the cube, looked at in halves beside one another.

ghost use Rattle.std.specs.Prelude.{◌≡◌, ◌+◌, ◌≤◌, ◌<◌, length, IfOk};
ghost use Rattle.std.specs.Thread.{IsSync};
ghost use Rattle.qm_solids.specs.InBook.{IsBookOf};
ghost use Rattle.qm_split.specs.inner.CubeParts.{ArePartsOfCube, AreBrushRuns};

use crate::contender::Part;
use crate::gathering::brush_in_cube;
use qm_brush::BrushList;
use qm_geom::PlaneBook;
use std::alloc::{AllocError, Global};
use std::thread::{Threads, join};

/// How many brushes a run has at the least.
const FEWEST: u64 = 20;

/// The brushes of a long list are looked at in fewer runs than this.
const RUNS: u64 = 16;

/// The brushes of a list, with the book of their planes, and how many of them a run has at the least.
#[derive(Drop)]
struct BrushRuns<'a> {
    list: &'a BrushList,
    book: &'a PlaneBook,
    fewest: u64,
}

/// What all brushes of a list are to the cube, in order.
pub(crate) fn parts_in_cube<R: Threads + Sync>(
    rt: &R,
    alloc: Global,
    list: &BrushList,
    book: &PlaneBook,
) -> Result<Vec<Part>, AllocError>
    requires filled { IsBookOf book.now list.now }
    ensures { IfOk result (λ parts. (0 + length parts.items ≡ length list.now) × ArePartsOfCube book.now list.now 0 parts.items) }
{
    let count = list.len();
    let runs = BrushRuns {
        list,
        book,
        fewest: FEWEST + count / RUNS,
    };
    parts_of_halves(rt, alloc, &runs, 0, count)
}

/// What the brushes of a list from one on, and before another, are to the cube, in order. They are looked at in halves beside one
/// another as long as both have enough of them.
#[cycle(parts)]
fn parts_of_halves<R: Threads + Sync>(
    rt: &R,
    alloc: Global,
    runs: &BrushRuns<'_>,
    from: u64,
    to: u64,
) -> Result<Vec<Part>, AllocError>
    requires runs { AreBrushRuns runs.now }
    requires in_order { from ≤ to }
    requires in_range { to ≤ length runs.now.list.now }
    ensures { IfOk result (λ parts. (from + length parts.items ≡ to) × ArePartsOfCube runs.now.book.now runs.now.list.now from parts.items) }
{
    let half = (to - from) / 2;
    if half < runs.fewest {
        return parts_in_turn(alloc, runs.list, runs.book, from, to);
    }
    let middle = from + half;
    both_parts(rt, alloc, runs, from, middle, to)
}

/// The same, of two runs of brushes that follow one another, looked at beside one another.
#[cycle(parts)]
fn both_parts<R: Threads + Sync>(
    rt: &R,
    alloc: Global,
    runs: &BrushRuns<'_>,
    from: u64,
    middle: u64,
    to: u64,
) -> Result<Vec<Part>, AllocError>
    requires runs { AreBrushRuns runs.now }
    requires in_order { (from < middle) × (middle < to) }
    requires in_range { to ≤ length runs.now.list.now }
    ensures { IfOk result (λ parts. (from + length parts.items ≡ to) × ArePartsOfCube runs.now.book.now runs.now.list.now from parts.items) }
{
    let first = move || -> Result<Vec<Part>, AllocError>
        requires { IsSync R.row × AreBrushRuns runs.now × (from < middle) × (middle ≤ length runs.now.list.now) }
        ensures { IfOk result (λ parts. (from + length parts.items ≡ middle) × ArePartsOfCube runs.entry.now.book.now runs.entry.now.list.now from parts.items) }
    { parts_of_halves(rt, alloc, runs, from, middle) };
    let second = move || -> Result<Vec<Part>, AllocError>
        requires { IsSync R.row × AreBrushRuns runs.now × (middle < to) × (to ≤ length runs.now.list.now) }
        ensures { IfOk result (λ parts. (middle + length parts.items ≡ to) × ArePartsOfCube runs.entry.now.book.now runs.entry.now.list.now middle parts.items) }
    { parts_of_halves(rt, alloc, runs, middle, to) };
    let (first, second) = join(rt, first, second);
    let mut parts = first?;
    parts.append(&mut second?)?;
    Ok(parts)
}

/// The same, one after another.
fn parts_in_turn(
    alloc: Global,
    list: &BrushList,
    book: &PlaneBook,
    from: u64,
    to: u64,
) -> Result<Vec<Part>, AllocError>
    requires filled { IsBookOf book.now list.now }
    requires in_order { from ≤ to }
    requires in_range { to ≤ length list.now }
    ensures { IfOk result (λ parts. (from + length parts.items ≡ to) × ArePartsOfCube book.now list.now from parts.items) }
{
    let mut parts = Vec::new(alloc);
    for i in from..to {
        parts.push(brush_in_cube(alloc, list, i, book)?)?;
    }
    Ok(parts)
}
