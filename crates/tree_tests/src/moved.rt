//! The brushes that block a moving box, moved outward by it, and the brushes of an entity.

ghost use Rattle.qm_solids.specs.InBook.{IsBookOf};

use qm_brush::{BrushList, brushes_of, moved};
use qm_contents::Contents;
use qm_contents::Contents::{Empty, Solid, Water};
use qm_geom::{PlaneBook, Point};
use qm_map::parse;
use std::alloc::{AllocError, Global};
use std::test::Fail;
use test_texts::put_box;

/// The cube, a clip brush and water in the world, and stone and water in a second entity.
fn world_and_door(alloc: Global) -> Result<String, AllocError> {
    let mut text = String::new(alloc);
    text.push_str("{\n")?;
    put_box(&mut text, "stone", [0, 0, 0], [64, 64, 64])?;
    put_box(&mut text, "clip", [256, 0, 0], [320, 64, 64])?;
    put_box(&mut text, "*water1", [512, 0, 0], [576, 64, 64])?;
    text.push_str("}\n{\n")?;
    put_box(&mut text, "stone", [0, 256, 0], [64, 320, 64])?;
    put_box(&mut text, "*water1", [0, 320, 0], [64, 384, 64])?;
    text.push_str("}\n")?;
    Ok(text)
}

/// Points beside the cube and the clip brush, within the reach of a box and just beyond it, one in the water, and what blocks there.
static MOVED: [([i64; 3], Contents); 8] = [
    ([32, 32, 32], Solid),
    ([79, 32, 32], Solid),
    ([81, 32, 32], Empty),
    ([-17, 32, 32], Empty),
    ([32, 32, 87], Solid),
    ([32, 32, -31], Solid),
    ([335, 79, 32], Solid),
    ([544, 32, 32], Empty),
];

/// Points of the second entity and beside it, and their contents.
static OF_DOOR: [([i64; 3], Contents); 4] = [
    ([32, 288, 32], Solid),
    ([32, 352, 32], Water),
    ([79, 288, 32], Empty),
    ([32, 32, 32], Empty),
];

/// Whether brushes have these contents at whole points.
fn hold(list: &BrushList, book: &PlaneBook, points: &[([i64; 3], Contents)]) -> bool
    requires { IsBookOf book.now list.now }
{
    let mut right = list.len() == 2;
    for &([x, y, z], contents) in points {
        right &= list.contents_at(&Point { x, y, z, w: 1 }, book) == contents;
    }
    right
}

/// Whether the obstacles of the world, moved by a box, and the brushes of the second entity are these.
fn are_right(alloc: Global) -> Option<bool> {
    let text = world_and_door(alloc).ok()?;
    let map = parse(alloc, text.as_bytes()).ok()?;
    let mut book = PlaneBook::new(alloc);
    let Ok(obstacles) = moved(alloc, &map, [-16, -16, -24], [16, 16, 32], &mut book) else {
        return None;
    };
    if map.entities.len() < 2 {
        return None;
    }
    let mut own = PlaneBook::new(alloc);
    let Ok(door) = brushes_of(alloc, &map, 1, &mut own) else {
        return None;
    };
    Some(hold(&obstacles, &book, &MOVED) && hold(&door, &own, &OF_DOOR))
}

#[test]
fn obstacles_and_brushes_of_an_entity(rt: HostRuntime) {
    assert!(rt; are_right(rt.alloc()) == Some(true));
}
