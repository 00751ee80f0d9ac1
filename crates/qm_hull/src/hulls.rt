ghost use Rattle.std.specs.Prelude.{◌≡◌, ◌⊎◌, IfOk};
ghost use Rattle.std.specs.Thread.{IsSync};
ghost use Rattle.qm_space.specs.Cuboid.{Cuboid};
ghost use Rattle.qm_mapfile.specs.declared.entity.MapFile.{MapFile};
ghost use Rattle.qm_grammar.specs.Valid.{IsValidMap};
ghost use Rattle.qm_solids.specs.InBook.{IsBookOf};
ghost use Rattle.qm_blocking.specs.Moved.{HasOrigin};
ghost use Rattle.qm_hull_trees.specs.HullBoxes.{hull_box};
ghost use Rattle.qm_hull_trees.specs.Hull.{IsHull};
ghost use Rattle.qm_hull.specs.inner.MovedWorld.{IsMovedWorld};

use crate::moved_world::{MovedWorld, moved_world};
use crate::plain_tree::plain_tree;
use qm_build::{OpenHalves, build, build_halves};
use qm_file::TreeFile;
use qm_mapfile::MapFile;
use std::alloc::{AllocError, Global};
use std::thread::{Threads, join};

/// The clip hull of a map, 1 or 2: the plain file of the tree in which the box of that hull is a point.
pub fn hull(alloc: Global, map: &MapFile, which: u8) -> Result<TreeFile, AllocError>
    requires valid { IsValidMap map.now }
    requires which { (which ≡ 1) ⊎ (which ≡ 2) }
    ensures { IfOk result (IsHull map.now (hull_box which)) }
{
    let world = moved_world(alloc, map, which)?;
    let tree = build(alloc, &world.list, &world.book)?;
    Ok(plain_tree(alloc, tree))
}

/// The same, where both halves of a large cell are built beside one another.
pub fn hull_halves<R: Threads + Sync>(
    rt: &R,
    alloc: Global,
    map: &MapFile,
    which: u8,
) -> Result<TreeFile, AllocError>
    requires valid { IsValidMap map.now }
    requires which { (which ≡ 1) ⊎ (which ≡ 2) }
    ensures { IfOk result (IsHull map.now (hull_box which)) }
{
    let world = moved_world(alloc, map, which)?;
    built_in_halves(rt, alloc, &world)
}

/// Both clip hulls of a map, which are built beside one another, each in halves.
pub fn hulls_halves<R: Threads + Sync>(
    rt: &R,
    alloc: Global,
    map: &MapFile,
) -> Result<(TreeFile, TreeFile), AllocError>
    requires valid { IsValidMap map.now }
    ensures first { IfOk result (λ both. IsHull map.now (hull_box 1) both.0) }
    ensures second { IfOk result (λ both. IsHull map.now (hull_box 2) both.1) }
{
    let one = moved_world(alloc, map, 1)?;
    let two = moved_world(alloc, map, 2)?;
    built_beside(rt, alloc, one, two)
}

/// The hulls of two moved worlds, which are built beside one another.
fn built_beside<R: Threads + Sync>(
    rt: &R,
    alloc: Global,
    one: MovedWorld,
    two: MovedWorld,
) -> Result<(TreeFile, TreeFile), AllocError>
    requires one { IsBookOf one.book one.list }
    requires two { IsBookOf two.book two.list }
    ensures first { IfOk result (λ both. (map : MapFile) (box : Cuboid) → HasOrigin box → IsMovedWorld map box one → IsHull map box both.0) }
    ensures second { IfOk result (λ both. (map : MapFile) (box : Cuboid) → HasOrigin box → IsMovedWorld map box two → IsHull map box both.1) }
{
    let build_one = move || -> Result<TreeFile, AllocError>
        requires { IsSync R.row × IsBookOf one.book one.list }
        ensures { IfOk result (λ file. (map : MapFile) (box : Cuboid) → HasOrigin box → IsMovedWorld map box one → IsHull map box file) }
    { built_in_halves(rt, alloc, &one) };
    let build_two = move || -> Result<TreeFile, AllocError>
        requires { IsSync R.row × IsBookOf two.book two.list }
        ensures { IfOk result (λ file. (map : MapFile) (box : Cuboid) → HasOrigin box → IsMovedWorld map box two → IsHull map box file) }
    { built_in_halves(rt, alloc, &two) };
    let (first, second) = join(rt, build_one, build_two);
    Ok((first?, second?))
}

/// The hull of a moved world, where both halves of a large cell are built beside one another.
fn built_in_halves<R: Threads + Sync>(
    rt: &R,
    alloc: Global,
    world: &MovedWorld,
) -> Result<TreeFile, AllocError>
    requires filled { IsBookOf world.now.book world.now.list }
    ensures { IfOk result (λ file. (map : MapFile) (box : Cuboid) → HasOrigin box → IsMovedWorld map box world.now → IsHull map box file) }
{
    let tree = build_halves(rt, alloc, &world.list, &world.book, &OpenHalves)?;
    Ok(plain_tree(alloc, tree))
}
