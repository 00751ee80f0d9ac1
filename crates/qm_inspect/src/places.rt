//! What is at a point.

ghost use Rattle.std.specs.Prelude.{◌≡◌, IsTrue, ◌↔◌};
ghost use Rattle.qm_partition.specs.Counting.{leaves_of};
ghost use Rattle.qm_answers.specs.Answers.{point_in_millionths, point_of, IsPlaceAnswer, AnswersPlace};
ghost use Rattle.qm_space.specs.InsideBound.{IsInsideBound};
ghost use Rattle.qm_inspect.specs.inner.BlockCounts.{AreBlockCounts};

use crate::numbered::number_of_leaf;
use qm_answers::{Answer, QueryFault};
use qm_commands::Millionths;
use qm_file::TreeFile;
use qm_geom::Point;
use qm_tree::Tree;

/// How many of the parts in which a coordinate is given make a map unit.
const PARTS_OF_UNIT: i64 = 1_000_000;

/// The leaf that has a point, whose coordinates are given in millionths; `OutsideCube` exactly where the point is not strictly
/// inside the cube of the file's bound.
pub(crate) fn place(
    file: &TreeFile,
    counts: &[u64],
    x: i64,
    y: i64,
    z: i64,
) -> Result<Answer, QueryFault>
    requires { AreBlockCounts (leaves_of file.now.tree.shape) counts.now }
    ensures { AnswersPlace file.now (point_in_millionths x y z) result }
{
    let at = Millionths { x, y, z };
    if !is_inside_bound(file.bound, at) {
        return Err(QueryFault::OutsideCube);
    }
    let point = point_of(at);
    Ok(answer_at(&file.tree, counts, &point))
}

/// The point of coordinates in millionths.
pub(crate) fn point_of(at: Millionths) -> Point
    ensures { result ≡ point_of at }
{
    Point {
        x: at.x,
        y: at.y,
        z: at.z,
        w: PARTS_OF_UNIT,
    }
}

/// Whether a point, whose coordinates are given in millionths, lies strictly inside the cube of a bound: so does the one of
/// them that is farthest from 0.
pub(crate) fn is_inside_bound(bound: u32, at: Millionths) -> bool
    ensures { IsTrue result ↔ IsInsideBound bound (point_of at) }
{
    let farthest = at
        .x
        .unsigned_abs()
        .max(at.y.unsigned_abs())
        .max(at.z.unsigned_abs());
    farthest < u64::from(bound) * PARTS_OF_UNIT as u64
}

/// The leaf to which a point is led, and what the tree says of it.
fn answer_at(tree: &Tree, counts: &[u64], point: &Point) -> Answer
    requires { AreBlockCounts (leaves_of tree.now.shape) counts.now }
    ensures { IsPlaceAnswer tree.now point.now result }
{
    let leaf = tree.leaf_at(point);
    let found = tree.leaf(leaf);
    Answer::Place {
        leaf,
        contents: found.contents,
        filled: found.filled,
        number: number_of_leaf(tree, counts, leaf, found),
    }
}
