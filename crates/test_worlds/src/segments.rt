//! Segments between whole points, through the leaves of a tree, without rounding.

use qm_contents::Contents;
use qm_geom::Plane;
use qm_tree::{Child, Tree};
use std::alloc::{AllocError, Global};

/// A segment, by the values of all planes of a tree at its first end and at its last.
#[derive(Drop)]
pub struct Segment {
    values: Vec<(i128, i128)>,
}

/// A place of a segment: so many parts of its first end, and so many of its last.
#[derive(Clone, Copy)]
struct Place {
    first: i128,
    last: i128,
}

const FIRST: Place = Place { first: 1, last: 0 };

const LAST: Place = Place { first: 0, last: 1 };

/// Where a segment crosses a plane, which is given by its number.
#[derive(Clone, Copy)]
struct Crossing {
    plane: u32,
    place: Place,
}

/// How much farther along the second place is than the first: 0 where they are one place, and negative where it comes before.
fn ahead(here: Place, there: Place) -> i128 {
    there
        .last
        .wrapping_mul(here.first)
        .wrapping_sub(here.last.wrapping_mul(there.first))
}

/// A place strictly between two that are not one.
fn between(here: Place, there: Place) -> Place {
    Place {
        first: here.first.wrapping_add(there.first),
        last: here.last.wrapping_add(there.last),
    }
}

/// The value of a plane at a point, which is positive in front of it. Numbers of planes have 32 and 64 bits, and points lie in
/// the cube, so that nothing wraps here, nor at places of segments.
fn value(plane: &Plane, at: [i32; 3]) -> i128 {
    let [x, y, z] = at;
    let along_x = i128::from(plane.nx).wrapping_mul(i128::from(x));
    let along_y = i128::from(plane.ny).wrapping_mul(i128::from(y));
    let along_z = i128::from(plane.nz).wrapping_mul(i128::from(z));
    along_x
        .wrapping_add(along_y)
        .wrapping_add(along_z)
        .wrapping_sub(i128::from(plane.d))
}

impl Segment {
    /// The segment from one point to another.
    pub fn new(
        alloc: Global,
        tree: &Tree,
        from: [i32; 3],
        to: [i32; 3],
    ) -> Result<Segment, AllocError> {
        let mut values = Vec::new(alloc);
        for plane in tree.all_planes() {
            values.push((value(plane, from), value(plane, to)))?;
        }
        Ok(Segment { values })
    }

    /// Whether a place is in front of a plane.
    fn is_in_front(&self, plane: u32, place: Place) -> bool {
        self.values.get(plane as usize).is_some_and(|(from, to)| {
            from.wrapping_mul(place.first)
                .wrapping_add(to.wrapping_mul(place.last))
                > 0
        })
    }

    /// Where it crosses the planes of nodes; `None` where an end is on one of them, or a point on two different ones.
    fn crossings(&self, alloc: Global, tree: &Tree) -> Result<Option<Vec<Crossing>>, AllocError> {
        let mut found: Vec<Crossing> = Vec::new(alloc);
        for node in tree.all_nodes() {
            let plane = node.plane;
            let Some(&(from, to)) = self.values.get(plane as usize) else {
                return Ok(None);
            };
            if from == 0 || to == 0 {
                return Ok(None);
            }
            if (from > 0) == (to > 0) || found.iter().any(|other| other.plane == plane) {
                continue;
            }
            let place = Place {
                first: to.wrapping_abs(),
                last: from.wrapping_abs(),
            };
            if found.iter().any(|other| ahead(other.place, place) == 0) {
                return Ok(None);
            }
            found.push(Crossing { plane, place })?;
        }
        Ok(Some(found))
    }

    /// The leaf of a place that is on no node plane.
    fn leaf_at(&self, tree: &Tree, place: Place) -> Option<u64> {
        let mut child = tree.root();
        for _ in 0..tree.nodes() {
            let Child::Node(n) = child else {
                break;
            };
            let node = tree.all_nodes().get(n as usize)?;
            child = if self.is_in_front(node.plane, place) {
                node.front
            } else {
                node.back
            };
        }
        match child {
            Child::Leaf(n) => Some(n),
            Child::Node(_) => None,
        }
    }

    /// The leaves that it passes, in order, where it is generic and they have one contents that is not solid.
    pub fn clear_leaves(&self, alloc: Global, tree: &Tree) -> Result<Option<Vec<u64>>, AllocError> {
        let Some(crossings) = self.crossings(alloc, tree)? else {
            return Ok(None);
        };
        let mut passed = Vec::new(alloc);
        let mut place = FIRST;
        for _ in 0..=crossings.len() {
            let next = next_place(&crossings, place);
            let Some(leaf) = self.leaf_at(tree, between(place, next)) else {
                return Ok(None);
            };
            if passed.last() != Some(&leaf) {
                passed.push(leaf)?;
            }
            place = next;
        }
        let clear = are_alike(tree, &passed);
        Ok(if clear { Some(passed) } else { None })
    }
}

/// The least of the places that come after one, or the last end.
fn next_place(crossings: &[Crossing], place: Place) -> Place {
    let mut least = LAST;
    for crossing in crossings {
        if ahead(place, crossing.place) > 0 && ahead(crossing.place, least) > 0 {
            least = crossing.place;
        }
    }
    least
}

fn contents_of(tree: &Tree, leaf: u64) -> Contents {
    match tree.all_leaves().get(leaf as usize) {
        Some(leaf) => leaf.contents,
        None => Contents::Solid,
    }
}

/// Whether leaves have one contents that is not solid.
fn are_alike(tree: &Tree, leaves: &[u64]) -> bool {
    let contents = match leaves.first() {
        Some(leaf) => contents_of(tree, *leaf),
        None => Contents::Solid,
    };
    contents != Contents::Solid
        && leaves
            .iter()
            .all(|leaf| contents_of(tree, *leaf) == contents)
}

/// The number of the row of a leaf: how many leaves before it are not solid.
pub fn row_of(tree: &Tree, leaf: u64) -> u64 {
    tree.all_leaves()
        .iter()
        .take(leaf as usize)
        .filter(|leaf| leaf.contents != Contents::Solid)
        .count() as u64
}
