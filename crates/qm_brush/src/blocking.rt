//! From a map to the list of the brushes of its world that stand in the way of a moving box, behind planes moved by it.

ghost use Rattle.std.specs.Prelude.{◌≡◌, ℕ, ◌<◌, ◌≤◌, ◌+◌, ◌-◌, ◌^◌, List, length, take, IfOk, OnErr, All};
ghost use Rattle.std.specs.Bool.{MatchBool};
ghost use Rattle.qm_mapfile.specs.declared.entity.Brush.{Brush};
ghost use Rattle.qm_grammar.specs.Valid.{IsValidMap, IsValidFace};
ghost use Rattle.qm_space.specs.Entered.{AreEnteredInBook};
ghost use Rattle.qm_solids.specs.Holding.{IsFull};
ghost use Rattle.qm_solids.specs.InBook.{IsBookOf};
ghost use Rattle.qm_drawn.specs.Brushes.{world_brushes};
ghost use Rattle.qm_blocking.specs.Moved.{IsMovingBox};
ghost use Rattle.qm_blocking.specs.Boxes.{IsLowEnd, IsHighEnd, AreLowEnds, AreHighEnds, box_between};
ghost use Rattle.qm_blocking.specs.Blocking.{is_in_the_way, solid_part, IsObstacle, AreObstacles};
ghost use Rattle.qm_blocking.specs.MovedSolids.{moved_planes};
ghost use Rattle.qm_brush.specs.MovedBrushes.{AreMovedBrushes};
ghost use Rattle.qm_brush.specs.inner.ValidFaces.{HaveValidFaces};
ghost use Rattle.qm_brush.specs.inner.MovedAdded.{IsMovedIfObstacle, IsPartlyEntered, AreMovedIn};

use crate::brush_list::BrushList;
use crate::entering::enter_faces;
use crate::fullness::is_full;
use crate::world::{contents_of_brush, world_brushes};
use qm_contents::Contents;
use qm_geom::{Cuboid, PlaneBook, Stretch};
use qm_mapfile::{Brush, MapFile};
use std::alloc::{AllocError, Global};

/// The obstacles of a map's world for a moving box: the full ones of its solid, sky and clip brushes, in the order of the text,
/// each behind its planes moved outward by the box from `lo` to `hi`. These planes enter the book, in the order of the
/// text. Where memory runs out, the first of them may have entered.
pub fn moved(
    alloc: Global,
    map: &MapFile,
    lo: [i32; 3],
    hi: [i32; 3],
    book: &mut PlaneBook,
) -> Result<BrushList, AllocError>
    requires valid { IsValidMap map.now }
    requires low { AreLowEnds lo }
    requires high { AreHighEnds hi }
    requires room { length book.old ≤ 2 ^ 31 }
    ensures brushes { IfOk result (λ list. AreMovedBrushes (box_between lo hi) map.now list book.old book.new) }
    ensures book { IfOk result (λ list. IsBookOf book.new list) }
    ensures prefix { OnErr result ((brushes : List Brush) → AreObstacles (world_brushes map.now) brushes → (k : ℕ) × AreEnteredInBook book.old (take k (moved_planes (box_between lo hi) brushes)) book.new) }
{
    listed_moved(alloc, world_brushes(map), &box_between(lo, hi), book)
}

/// The box from one corner to the opposite one.
fn box_between(lo: [i32; 3], hi: [i32; 3]) -> Cuboid
    requires low { AreLowEnds lo }
    requires high { AreHighEnds hi }
    ensures { result ≡ box_between lo hi }
{
    Cuboid {
        x: stretch_between(lo[0], hi[0]),
        y: stretch_between(lo[1], hi[1]),
        z: stretch_between(lo[2], hi[2]),
    }
}

/// The stretch from a low end of a box to a high one.
fn stretch_between(low: i32, high: i32) -> Stretch
    requires low { IsLowEnd low }
    requires high { IsHighEnd high }
    ensures { result ≡ record { low = low; high = high } }
{
    Stretch::between(low, high)
}

/// The obstacles among some brushes, moved, in their order.
fn listed_moved(
    alloc: Global,
    brushes: &[Brush],
    cuboid: &Cuboid,
    book: &mut PlaneBook,
) -> Result<BrushList, AllocError>
    requires valid { HaveValidFaces brushes.now }
    requires moving { IsMovingBox cuboid.now }
    requires room { length book.old ≤ 2 ^ 31 }
    ensures ok { IfOk result (λ list. AreMovedIn cuboid.now brushes.now list book.old book.new) }
    ensures prefix { OnErr result ((those : List Brush) → AreObstacles brushes.now those → (k : ℕ) × AreEnteredInBook book.old (take k (moved_planes cuboid.now those)) book.new) }
{
    // Of a book it is known from its length that its planes are in lowest terms and each there once.
    let _ = book.len();
    let mut list = BrushList::new(alloc);
    for brush in brushes {
        add_if_obstacle(alloc, &mut list, brush, cuboid, book)?;
    }
    Ok(list)
}

/// Adds a brush that is an obstacle.
fn add_if_obstacle(
    alloc: Global,
    list: &mut BrushList,
    brush: &Brush,
    cuboid: &Cuboid,
    book: &mut PlaneBook,
) -> Result<(), AllocError>
    requires valid { All IsValidFace brush.now.faces }
    requires moving { IsMovingBox cuboid.now }
    requires room { length book.old + length brush.now.faces < 2 ^ 32 - 1 }
    ensures ok { IfOk result (λ _. IsMovedIfObstacle cuboid.now brush.now list.old list.new book.old book.new) }
    ensures err { OnErr result (IsPartlyEntered cuboid.now brush.now book.old book.new) }
{
    if is_obstacle(alloc, brush)? {
        list.add_moved(brush, cuboid, book)
    } else {
        Ok(())
    }
}

/// Whether a brush stands in the way and is full.
fn is_obstacle(alloc: Global, brush: &Brush) -> Result<bool, AllocError>
    requires valid { All IsValidFace brush.now.faces }
    requires few { length brush.now.faces < 2 ^ 32 - 1 }
    ensures { IfOk result (λ obstacle. MatchBool obstacle (IsObstacle brush.now) (IsObstacle brush.now → ⊥)) }
{
    if is_in_the_way(contents_of_brush(brush)) {
        is_brush_full(alloc, brush)
    } else {
        Ok(false)
    }
}

/// Whether what fills a brush stands in the way: clip, which has no contents, solid and sky do.
fn is_in_the_way(contents: Option<Contents>) -> bool
    ensures { result ≡ is_in_the_way contents }
{
    match contents {
        None | Some(Contents::Solid | Contents::Sky) => true,
        Some(_) => false,
    }
}

/// Whether some point of the cube is strictly behind all faces of a brush.
fn is_brush_full(alloc: Global, brush: &Brush) -> Result<bool, AllocError>
    requires valid { All IsValidFace brush.now.faces }
    requires few { length brush.now.faces < 2 ^ 32 - 1 }
    ensures { IfOk result (λ full. MatchBool full (IsFull (solid_part brush.now)) (IsFull (solid_part brush.now) → ⊥)) }
{
    let mut faces = Vec::new(alloc);
    let mut book = PlaneBook::new(alloc);
    enter_faces(&mut faces, brush.faces.as_slice(), &mut book)?;
    is_full(alloc, &faces, book.planes())
}
