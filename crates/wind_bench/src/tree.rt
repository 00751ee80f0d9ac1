ghost use Rattle.std.specs.Prelude.{◌<◌};
ghost use Rattle.qm_space.specs.Point.{IsCoordinate};

use crate::planes::{Numbers, through};
use crate::tally::Tally;
use qm_geom::Plane;
use qm_wind::{Clip, Halves, Lies, Side, Winding};
use std::alloc::{AllocError, Global};

/// A box in steps of 64 units, counted from 2,048 units below 0.
#[derive(Clone, Copy)]
struct Block {
    low: [u32; 3],
    high: [u32; 3],
}

impl Block {
    fn next(numbers: &mut Numbers) -> Block {
        let low = [
            numbers.next() % 48,
            numbers.next() % 48,
            numbers.next() % 48,
        ];
        let high = [
            low[0] + 1 + numbers.next() % 16,
            low[1] + 1 + numbers.next() % 16,
            low[2] + 1 + numbers.next() % 16,
        ];
        Block { low, high }
    }

    /// Its face across an axis, at its low or high end.
    fn face(&self, alloc: Global, axis: usize, end: Side) -> Result<Option<Winding>, AllocError>
        requires { axis < 3 }
    {
        let plane = match end {
            Side::Front => across(axis, self.high[axis]),
            Side::Back => across(axis, self.low[axis]),
        };
        let Some(mut face) = Winding::on(alloc, &plane)? else {
            return Ok(None);
        };
        for other in 0..3 {
            if other != axis {
                face = kept(face, &across(other, self.low[other]), Side::Front)?;
                face = kept(face, &across(other, self.high[other]), Side::Back)?;
            }
        }
        Ok(Some(face))
    }
}

/// What is left of a winding on one side of a plane; the winding where that is none.
fn kept(winding: Winding, plane: &Plane, side: Side) -> Result<Winding, AllocError> {
    match winding.clip(plane, side)? {
        Clip::Cut(part) => Ok(part),
        Clip::Whole | Clip::Gone => Ok(winding),
    }
}

/// The plane across an axis, so many steps along it.
fn across(axis: usize, steps: u32) -> Plane {
    let at = place(steps);
    match axis {
        0 => through([at, 0, 0], [at, 1, 0], [at, 0, 1]),
        1 => through([0, at, 0], [1, at, 0], [0, at, 1]),
        _ => through([0, 0, at], [1, 0, at], [0, 1, at]),
    }
}

fn place(steps: u32) -> i32
    ensures { IsCoordinate result }
{
    (steps % 65) as i32 * 64 - 2048
}

/// The faces of 64 boxes, and the planes of a tree of ten levels: the children of the plane at a place
/// stand at twice this place, and one and two places on. Each eighth plane is slanted.
#[derive(Drop)]
pub(crate) struct Tree {
    faces: Vec<Winding>,
    planes: Vec<Plane>,
}

impl Tree {
    pub(crate) fn new(alloc: Global) -> Result<Tree, AllocError> {
        let mut numbers = Numbers::starting_at(1);
        Ok(Tree {
            faces: faces(alloc, &mut numbers)?,
            planes: tree_planes(alloc, &mut numbers)?,
        })
    }

    /// Pushes each face down the tree, level by level, and cuts it in two where a plane goes across it.
    pub(crate) fn push_down(&self, alloc: Global, tally: Tally) -> Result<Tally, AllocError> {
        let mut tally = tally;
        let mut pieces = Vec::with_capacity(alloc, self.faces.len())?;
        for face in &self.faces {
            pieces.push(Piece {
                winding: face.copy()?,
                node: 0,
            })?;
        }
        for _ in 0..10 {
            let mut below = Vec::with_capacity(alloc, pieces.len())?;
            for piece in pieces {
                tally = piece.push(&self.planes, &mut below, tally)?;
            }
            pieces = below;
        }
        Ok(tally)
    }
}

fn faces(alloc: Global, numbers: &mut Numbers) -> Result<Vec<Winding>, AllocError> {
    let mut faces = Vec::new(alloc);
    for _ in 0..64 {
        let block = Block::next(numbers);
        for axis in 0..3 {
            for end in [Side::Back, Side::Front] {
                if let Some(face) = block.face(alloc, axis, end)? {
                    faces.push(face)?;
                }
            }
        }
    }
    Ok(faces)
}

fn tree_planes(alloc: Global, numbers: &mut Numbers) -> Result<Vec<Plane>, AllocError> {
    let mut planes = Vec::new(alloc);
    for place in 0..1023 {
        let plane = if place % 8 == 7 {
            numbers.plane(2048)
        } else {
            across(numbers.next() as usize % 3, numbers.next() % 65)
        };
        planes.push(plane)?;
    }
    Ok(planes)
}

/// A part of a face on its way down the tree, with the place of the plane that it comes to.
#[derive(Drop)]
struct Piece {
    winding: Winding,
    node: u32,
}

impl Piece {
    /// Goes on below, whole or in two parts. It asks first where it lies: so a piece that isn't cut is
    /// moved but once.
    fn push(
        self,
        planes: &Vec<Plane>,
        below: &mut Vec<Piece>,
        tally: Tally,
    ) -> Result<Tally, AllocError> {
        let Some(plane) = planes.get(self.node as usize) else {
            return Ok(tally);
        };
        let Piece { winding, node } = self;
        let front = node.wrapping_mul(2).wrapping_add(1);
        let back = front.wrapping_add(1);
        match winding.lies(plane) {
            Lies::Front => below.push(Piece {
                winding,
                node: front,
            })?,
            Lies::Back => below.push(Piece {
                winding,
                node: back,
            })?,
            Lies::On => return Ok(tally.with_gone()),
            Lies::Across => {
                let halves = winding.split(plane)?;
                let corners = push_halves(halves, front, back, below)?;
                return Ok(tally.with_cut(corners));
            }
        }
        Ok(tally.with_whole())
    }
}

/// Pushes the parts to their places. How many corners they have.
fn push_halves(
    halves: Halves,
    front: u32,
    back: u32,
    below: &mut Vec<Piece>,
) -> Result<u64, AllocError> {
    let Halves {
        front: in_front,
        back: behind,
    } = halves;
    let mut corners = 0_u64;
    if let Some(winding) = in_front {
        corners = corners.wrapping_add(winding.len() as u64);
        below.push(Piece {
            winding,
            node: front,
        })?;
    }
    if let Some(winding) = behind {
        corners = corners.wrapping_add(winding.len() as u64);
        below.push(Piece {
            winding,
            node: back,
        })?;
    }
    Ok(corners)
}
