//! Worlds of MAP texts.

ghost use Rattle.std.specs.Prelude.{IfOk};
ghost use Rattle.qm_partition.specs.Ways.{HasPoints};

use qm_brush::brushes;
use qm_build::build;
use qm_flood::{Flood, Origin, flood};
use qm_geom::{PlaneBook, Point};
use qm_map::parse;
use qm_portal::{World, touches, world};
use qm_tree::Tree;
use std::alloc::{AllocError, Global};

/// The tree of a text, which has to be a map.
pub fn tree_of(alloc: Global, text: &str) -> Result<Tree, AllocError>
    ensures { IfOk result HasPoints }
{
    let Ok(map) = parse(alloc, text.as_bytes()) else {
        return Err(AllocError);
    };
    let mut book = PlaneBook::new(alloc);
    let list = brushes(alloc, &map, &mut book)?;
    build(alloc, &list, &book)
}

/// The world of a text with an entity at a whole point: filled from the outside, where the entity does not leak.
pub fn world_of(alloc: Global, text: &str, [x, y, z]: [i64; 3]) -> Result<World, AllocError> {
    let tree = tree_of(alloc, text)?;
    let contacts = touches(alloc, &tree)?;
    let point = Point { x, y, z, w: 1 };
    let origins = [Origin { entity: 1, point }];
    match flood(alloc, &contacts, &tree, &origins)? {
        Flood::Sealed(filled) => {
            let marked = tree.with_filled(&filled);
            world(alloc, &marked, &contacts)
        }
        _ => world(alloc, &tree, &contacts),
    }
}
