//! The clip hulls of one cube, built in each way.

ghost use Rattle.std.specs.Prelude.{◌≡◌, ◌⊎◌};
ghost use Rattle.qm_grammar.specs.Valid.{IsValidMap};

use crate::halves::is_same_tree;
use qm_contents::Contents;
use qm_contents::Contents::{Empty, Solid};
use qm_file::TreeFile;
use qm_geom::Point;
use qm_hull::{hull, hull_halves, hulls_halves};
use qm_map::parse;
use qm_mapfile::MapFile;
use qm_tree::Tree;
use std::alloc::{AllocError, Global};
use std::test::Fail;
use std::thread::Threads;
use test_texts::text_of;

/// Whether a tree leads the point (x, 0, z) to these contents.
fn leads(tree: &Tree, x: i64, z: i64, contents: Contents) -> bool {
    let leaf = tree.leaf_at(&Point { x, y: 0, z, w: 1 });
    leaf < tree.leaves() && tree.leaf(leaf).contents == contents
}

/// Whether the hull of a number is this one.
fn is_hull(alloc: Global, map: &MapFile, which: u8, other: &TreeFile) -> Result<bool, AllocError>
    requires valid { IsValidMap map.now }
    requires which { (which ≡ 1) ⊎ (which ≡ 2) }
{
    let alone = hull(alloc, map, which)?;
    Ok(is_same_tree(&alone.tree, &other.tree))
}

/// Whether the first hull that is built in halves is the one that is built alone.
fn is_same_in_halves<R: Threads + Sync>(
    rt: &R,
    alloc: Global,
    map: &MapFile,
) -> Result<bool, AllocError>
    requires valid { IsValidMap map.now }
{
    let halved = hull_halves(rt, alloc, map, 1)?;
    is_hull(alloc, map, 1, &halved)
}

/// Whether both hulls that are built beside one another are those that are built alone, and what they hold at some points.
fn are_right<R: Threads + Sync>(rt: &R, alloc: Global, map: &MapFile) -> Result<bool, AllocError>
    requires valid { IsValidMap map.now }
{
    let (one, two) = hulls_halves(rt, alloc, map)?;
    let right = leads(&one.tree, -8, 0, Solid)
        && leads(&one.tree, 0, 90, Empty)
        && leads(&one.tree, 0, -60, Empty)
        && leads(&two.tree, 0, -60, Solid);
    Ok(right && is_hull(alloc, map, 1, &one)? && is_hull(alloc, map, 2, &two)?)
}

#[test]
fn hulls_of_a_cube(rt: HostRuntime) -> Result<(), Fail> {
    let text = text_of(rt.alloc(), &[([0, 0, 0], [64, 64, 64])])?;
    let mut right = false;
    if let Ok(map) = parse(rt.alloc(), text.as_bytes()) {
        right = is_same_in_halves(&rt, rt.alloc(), &map)? && are_right(&rt, rt.alloc(), &map)?;
    }
    assert!(rt; right);
    Ok(())
}
