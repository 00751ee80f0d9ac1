//! Trees that are built of worlds, beside what the brushes of the worlds hold.

ghost use Rattle.std.specs.Prelude.{IfSome};
ghost use Rattle.qm_solids.specs.InBook.{IsBookOf};

use crate::worlds::{Grid, random_world};
use qm_brush::{BrushList, brushes};
use qm_build::build;
use qm_contents::Contents;
use qm_geom::{PlaneBook, Point};
use qm_map::parse;
use qm_tree::Tree;
use std::alloc::{AllocError, Global};
use std::cmp::Ordering;
use std::test::Fail;
use test_numbers::Random;

/// The brushes of a world, and the tree that is built of them.
#[derive(Drop)]
struct Built {
    book: PlaneBook,
    list: BrushList,
    tree: Tree,
}

impl Built {
    fn of(alloc: Global, text: &str) -> Option<Built>
        ensures { IfSome result (λ built. IsBookOf built.book built.list) }
    {
        let Ok(map) = parse(alloc, text.as_bytes()) else {
            return None;
        };
        let mut book = PlaneBook::new(alloc);
        let Ok(list) = brushes(alloc, &map, &mut book) else {
            return None;
        };
        let Ok(tree) = build(alloc, &list, &book) else {
            return None;
        };
        Some(Built { book, list, tree })
    }

    /// Whether a point is on the plane of no node.
    fn is_off_node_planes(&self, at: &Point) -> bool {
        for n in 0..self.tree.nodes() {
            let node = self.tree.node(n);
            if self.tree.plane(node.plane).side(at) == Ordering::Equal {
                return false;
            }
        }
        true
    }

    /// Whether the tree leads a point to these contents.
    fn leads_to(&self, at: &Point, contents: Contents) -> bool {
        let leaf = self.tree.leaf_at(at);
        leaf < self.tree.leaves() && self.tree.leaf(leaf).contents == contents
    }

    /// Whether the tree gives a point what the brushes hold there, or the point is on a node plane.
    fn agrees(&self, at: &Point) -> bool
        requires { IsBookOf self.now.book self.now.list }
    {
        let contents = self.list.contents_at(at, &self.book);
        self.leads_to(at, contents) || !self.is_off_node_planes(at)
    }
}

/// A point beside the brushes of a random world, whole or not.
fn random_point(random: &mut Random) -> Point {
    let w = random.below(5) as i64 + 1;
    let x = random.below(1000) as i64 - 500;
    let y = random.below(1000) as i64 - 500;
    let z = random.below(1000) as i64 - 500;
    Point { x, y, z, w }
}

/// A coordinate in halves of a thousandth, of those near a multiple of 16: there the faces of brushes in thousandths meet.
fn fine_coordinate(random: &mut Random) -> i64 {
    32_000 * (random.below(9) as i64 - 4) + random.below(160) as i64 - 80
}

/// A point of such coordinates.
fn fine_point(random: &mut Random) -> Point {
    let x = fine_coordinate(random);
    let y = fine_coordinate(random);
    let z = fine_coordinate(random);
    Point { x, y, z, w: 2000 }
}

/// Whether a random world is built, and its tree and its brushes agree at many points.
fn agree_in_world(alloc: Global, random: &mut Random, grid: Grid) -> Result<bool, AllocError> {
    let text = random_world(alloc, random, grid)?;
    let Some(built) = Built::of(alloc, &text) else {
        return Ok(false);
    };
    for _ in 0..50 {
        let point = match grid {
            Grid::Whole => random_point(random),
            Grid::Thousandths => fine_point(random),
        };
        if !built.agrees(&point) {
            return Ok(false);
        }
    }
    Ok(true)
}

/// Whether so many random worlds are built, and the tree and the brushes of each agree at many points.
fn agree_in_worlds(
    alloc: Global,
    random: &mut Random,
    grid: Grid,
    count: u64,
) -> Result<bool, AllocError> {
    for _ in 0..count {
        if !agree_in_world(alloc, random, grid)? {
            return Ok(false);
        }
    }
    Ok(true)
}

/// In many random worlds, the tree gives points off its node planes what the brushes hold. In some of the worlds the brushes
/// meet in thousandths.
#[test]
fn random_worlds_are_built(rt: HostRuntime) -> Result<(), Fail> {
    let mut random = Random::new(1);
    assert!(rt; agree_in_worlds(rt.alloc(), &mut random, Grid::Whole, 200)?);
    assert!(rt; agree_in_worlds(rt.alloc(), &mut random, Grid::Thousandths, 100)?);
    Ok(())
}
