//! The obstacles of a map's world, moved by the box of a hull.

ghost use Rattle.std.specs.Prelude.{◌≡◌, IfOk};
ghost use Rattle.qm_grammar.specs.Valid.{IsValidMap};
ghost use Rattle.qm_hull_trees.specs.HullBoxes.{hull_box};
ghost use Rattle.qm_hull.specs.inner.MovedWorld.{IsMovedWorld};

use qm_brush::{BrushList, moved};
use qm_geom::PlaneBook;
use qm_mapfile::MapFile;
use std::alloc::{AllocError, Global};

/// The hull whose box is the smaller one.
const SMALLER: u8 = 1;

/// Moved obstacles, and the book that was filled with their planes.
#[derive(Drop)]
pub(crate) struct MovedWorld {
    pub list: BrushList,
    pub book: PlaneBook,
}

/// The obstacles of a map's world, moved by the box of a hull.
pub(crate) fn moved_world(alloc: Global, map: &MapFile, which: u8) -> Result<MovedWorld, AllocError>
    requires valid { IsValidMap map.now }
    ensures { IfOk result (IsMovedWorld map.now (hull_box which)) }
{
    let mut book = PlaneBook::new(alloc);
    let list = if which == SMALLER {
        moved(alloc, map, [-16, -16, -24], [16, 16, 32], &mut book)?
    } else {
        moved(alloc, map, [-32, -32, -24], [32, 32, 64], &mut book)?
    };
    Ok(MovedWorld { list, book })
}
