//! The walk of the division of a cell, where both halves of a large cell are walked beside one another.

ghost use Rattle.std.specs.Prelude.{List, IfOk, OnOk, IsTrue, ◌↔◌, ◌<◌, ◌≤◌};
ghost use Rattle.std.specs.Thread.{IsSync};
ghost use Rattle.qm_solids.specs.Solid.{Solid};
ghost use Rattle.qm_split.specs.CellFragments.{piece_count};
ghost use Rattle.qm_build.specs.inner.UnderWay.{AreFragments};
ghost use Rattle.qm_build.specs.inner.Visited.{IsVisited};
ghost use Rattle.qm_build.specs.inner.WalkedCells.{IsWalkOf, AreBothWalked};
ghost use Rattle.qm_build.specs.declared.halves.TheConstants.{MOST_ABOVE, LARGE};

use crate::division::wait;
use crate::gate::HalvesGate;
use crate::top::{Top, top_of};
use qm_geom::PlaneBook;
use qm_partition::Visit;
use qm_split::{CellHalves, Fragments};
use std::alloc::{AllocError, Global};
use std::thread::{Threads, join};

/// A cell is walked in halves as long as fewer cells above it are.
const MOST_ABOVE: u8 = 6;

/// How many fragments each half of a cell has that is walked in halves.
const LARGE: u64 = 64;

/// Where a cell is walked: by the book that names its planes, with the gate that halves pass by, and below so many cells that are
/// walked in halves.
#[derive(Drop)]
struct Halving<'a, B> {
    book: &'a PlaneBook,
    gate: &'a B,
    above: u8,
}

/// What a walk meets in the partition into which solids divide the cell of fragments, below so many cells that are walked in
/// halves.
#[cycle(halves)]
pub(crate) fn walk_in_halves<R: Threads + Sync, B: HalvesGate + Sync>(
    rt: &R,
    alloc: Global,
    book: &PlaneBook,
    gate: &B,
    above: u8,
    fragments: Fragments,
) -> Result<Vec<Visit>, AllocError>
    requires known { (solids : List Solid) × AreFragments solids book.now fragments }
    ensures { IfOk result (λ walk. (solids : List Solid) → AreFragments solids book.now fragments →
        IsWalkOf solids book.now fragments walk.items) }
{
    let halving = Halving { book, gate, above };
    let mut walk = Vec::new(alloc);
    let mut pending = Vec::new(alloc);
    pending.push(fragments)?;
    while let Some(fragments) = pending.pop() {
        visit_in_halves(rt, alloc, &halving, fragments, &mut pending, &mut walk)?;
    }
    Ok(walk)
}

/// Visits a cell: a leaf is written where no plane parts it, and else a node. Then what a walk meets on both sides is written
/// where both are large, and else they wait.
#[cycle(halves)]
fn visit_in_halves<R: Threads + Sync, B: HalvesGate + Sync>(
    rt: &R,
    alloc: Global,
    halving: &Halving<'_, B>,
    fragments: Fragments,
    pending: &mut Vec<Fragments>,
    walk: &mut Vec<Visit>,
) -> Result<(), AllocError>
    requires known { (solids : List Solid) × AreFragments solids halving.now.book.now fragments }
    ensures { OnOk result ((solids : List Solid) → AreFragments solids halving.now.book.now fragments →
        IsVisited solids halving.now.book.now fragments pending.old.items walk.old.items pending.new.items walk.new.items) }
{
    match top_of(fragments, halving.book)? {
        Top::Leaf(leaf) => {
            walk.push(Visit::Leaf(leaf))?;
            Ok(())
        }
        Top::Node(number, halves) => {
            walk.push(Visit::Node(number))?;
            if halving.above < MOST_ABOVE && are_large(&halves) {
                walk_both(rt, alloc, halving, halves, walk)
            } else {
                wait(halves, pending)
            }
        }
    }
}

/// Writes what a walk meets on both sides of a cell, which are walked beside one another.
#[cycle(halves)]
fn walk_both<R: Threads + Sync, B: HalvesGate + Sync>(
    rt: &R,
    alloc: Global,
    halving: &Halving<'_, B>,
    halves: CellHalves,
    walk: &mut Vec<Visit>,
) -> Result<(), AllocError>
    requires above { halving.now.above < MOST_ABOVE }
    requires front { (solids : List Solid) × AreFragments solids halving.now.book.now halves.front }
    requires back { (solids : List Solid) × AreFragments solids halving.now.book.now halves.back }
    ensures { OnOk result ((solids : List Solid) → AreFragments solids halving.now.book.now halves.front → AreFragments solids halving.now.book.now halves.back →
        AreBothWalked solids halving.now.book.now halves walk.old.items walk.new.items) }
{
    let (book, gate, above) = (halving.book, halving.gate, halving.above);
    let CellHalves { front, back } = halves;
    let before = move || -> Result<Vec<Visit>, AllocError>
        requires { IsSync R.row × IsSync B.row × (above < MOST_ABOVE) × ((solids : List Solid) × AreFragments solids book.now front) }
        ensures { IfOk result (λ walk. (solids : List Solid) → AreFragments solids book.entry.now front → IsWalkOf solids book.entry.now front walk.items) }
    {
        gate.at(above, true);
        walk_in_halves(rt, alloc, book, gate, above + 1, front)
    };
    let behind = move || -> Result<Vec<Visit>, AllocError>
        requires { IsSync R.row × IsSync B.row × (above < MOST_ABOVE) × ((solids : List Solid) × AreFragments solids book.now back) }
        ensures { IfOk result (λ walk. (solids : List Solid) → AreFragments solids book.entry.now back → IsWalkOf solids book.entry.now back walk.items) }
    {
        gate.at(above, false);
        walk_in_halves(rt, alloc, book, gate, above + 1, back)
    };
    let (first, second) = join(rt, before, behind);
    walk.append(&mut first?)?;
    walk.append(&mut second?)
}

/// Whether both sides of a cell are large.
fn are_large(halves: &CellHalves) -> bool
    ensures { IsTrue result ↔ ((LARGE ≤ piece_count halves.now.front) × (LARGE ≤ piece_count halves.now.back)) }
{
    halves.front.len() >= LARGE && halves.back.len() >= LARGE
}
