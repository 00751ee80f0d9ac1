//! From a map to the lists of the brushes of its entities.

ghost use Rattle.std.specs.Prelude.{ℕ, ◌<◌, ◌≤◌, ◌+◌, ◌-◌, ◌^◌, length, take, IfOk, OnErr, IsTrue, All};
ghost use Rattle.std.specs.List.{AllZip};
ghost use Rattle.qm_grammar.specs.Valid.{IsValidMap, IsValidFace};
ghost use Rattle.qm_space.specs.Entered.{AreEnteredInBook};
ghost use Rattle.qm_solids.specs.Alike.{IsAlike};
ghost use Rattle.qm_solids.specs.InBook.{solids_in, IsBookOf};
ghost use Rattle.qm_drawn.specs.Planes.{planes_of_brush, planes_of_drawn, drawn_planes, entity_planes};
ghost use Rattle.qm_drawn.specs.Solids.{drawn_solids, entity_solids};
ghost use Rattle.qm_drawn.specs.Brushes.{is_drawn};
ghost use Rattle.qm_brush.specs.inner.ValidFaces.{HaveValidFaces};
ghost use Rattle.qm_brush.specs.inner.Added.{IsAddedIfDrawn, AreAdded};
ghost use Rattle.qm_brush.specs.inner.Entered.{AreFirstEntered};

use crate::brush_list::BrushList;
use crate::world::{contents_of_brush, entity_brushes, world_brushes};
use qm_geom::PlaneBook;
use qm_mapfile::{Brush, MapFile};
use std::alloc::{AllocError, Global};

/// The drawn brushes of a map's world, in the order of the text. The plane of each of their faces enters the book, in
/// the order of the text. Where memory runs out, the first of these planes may have entered.
pub fn brushes(alloc: Global, map: &MapFile, book: &mut PlaneBook) -> Result<BrushList, AllocError>
    requires valid { IsValidMap map.now }
    requires room { length book.old ≤ 2 ^ 31 }
    ensures solids { IfOk result (λ list. AllZip IsAlike (drawn_solids map.now) (solids_in book.new list)) }
    ensures book { IfOk result (λ list. IsBookOf book.new list) }
    ensures entered { IfOk result (λ _. AreEnteredInBook book.old (drawn_planes map.now) book.new) }
    ensures prefix { OnErr result ((k : ℕ) × AreEnteredInBook book.old (take k (drawn_planes map.now)) book.new) }
{
    listed(alloc, world_brushes(map), book)
}

/// The drawn brushes of one entity of a map, whose number is its place in the text: the world is 0. What `brushes`
/// says of the world's holds of these.
pub fn brushes_of(
    alloc: Global,
    map: &MapFile,
    entity: u64,
    book: &mut PlaneBook,
) -> Result<BrushList, AllocError>
    requires valid { IsValidMap map.now }
    requires there { entity < length map.now.entities }
    requires room { length book.old ≤ 2 ^ 31 }
    ensures solids { IfOk result (λ list. AllZip IsAlike (entity_solids map.now entity) (solids_in book.new list)) }
    ensures book { IfOk result (λ list. IsBookOf book.new list) }
    ensures entered { IfOk result (λ _. AreEnteredInBook book.old (entity_planes map.now entity) book.new) }
    ensures prefix { OnErr result ((k : ℕ) × AreEnteredInBook book.old (take k (entity_planes map.now entity)) book.new) }
{
    listed(alloc, entity_brushes(map, entity), book)
}

/// Those of some brushes that are drawn, in their order.
fn listed(alloc: Global, brushes: &[Brush], book: &mut PlaneBook) -> Result<BrushList, AllocError>
    requires valid { HaveValidFaces brushes.now }
    requires room { length book.old ≤ 2 ^ 31 }
    ensures ok { IfOk result (λ list. AreAdded brushes.now list book.old book.new) }
    ensures prefix { OnErr result ((k : ℕ) × AreEnteredInBook book.old (take k (planes_of_drawn brushes.now)) book.new) }
{
    // Of a book it is known from its length that its planes are in lowest terms and each there once.
    let _ = book.len();
    let mut list = BrushList::new(alloc);
    for brush in brushes {
        add_if_drawn(alloc, &mut list, brush, book)?;
    }
    Ok(list)
}

/// Adds a brush that is not clip.
fn add_if_drawn(
    alloc: Global,
    list: &mut BrushList,
    brush: &Brush,
    book: &mut PlaneBook,
) -> Result<(), AllocError>
    requires valid { All IsValidFace brush.now.faces }
    requires room { length book.old + length brush.now.faces < 2 ^ 32 - 1 }
    ensures ok { IfOk result (λ _. IsAddedIfDrawn brush.now list.old list.new book.old book.new) }
    ensures drawn { OnErr result (IsTrue (is_drawn brush.now)) }
    ensures err { OnErr result (AreFirstEntered book.old (planes_of_brush brush.now) book.new) }
{
    match contents_of_brush(brush) {
        None => Ok(()),
        Some(contents) => list.add(alloc, brush, contents, book),
    }
}
