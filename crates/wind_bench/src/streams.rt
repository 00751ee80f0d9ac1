use crate::planes::{planes, through};
use crate::tally::Tally;
use crate::tree::Tree;
use qm_geom::Plane;
use qm_wind::{Clip, Side, Winding};
use std::alloc::{AllocError, Global};

/// What is clipped.
#[derive(Clone, Copy)]
pub(crate) enum Stream {
    /// The square of the plane z = 0, by planes through three points of the cube.
    Squares,
    /// The octagon that four slanted planes leave of this square, by the same planes.
    Octagons,
    /// A small square in one corner of the cube, which nearly all of these planes miss.
    Misses,
    /// A square by one plane after another, until nothing is left of it.
    Chains,
    /// The faces of 64 boxes down a tree of ten levels of planes, each eighth of which is slanted.
    Tree,
}

impl Stream {
    pub(crate) fn name(self) -> &'static str {
        match self {
            Stream::Squares => "squares",
            Stream::Octagons => "octagons",
            Stream::Misses => "misses",
            Stream::Chains => "chains",
            Stream::Tree => "tree",
        }
    }

    /// Runs so many rounds.
    pub(crate) fn run(self, alloc: Global, rounds: u32) -> Result<Tally, AllocError> {
        match self {
            Stream::Tree => down_the_tree(alloc, rounds),
            _ => self.clips(alloc, rounds),
        }
    }

    /// Clips so many rounds, in each of them by 1,024 planes on both sides.
    fn clips(self, alloc: Global, rounds: u32) -> Result<Tally, AllocError> {
        let planes = planes(alloc, 1024)?;
        let mut tally = Tally::default();
        let Some(start) = self.start(alloc)? else {
            return Ok(tally);
        };
        for _ in 0..rounds {
            tally = match self {
                Stream::Chains => chain(&start, planes.as_slice(), tally)?,
                _ => both_sides(&start, planes.as_slice(), tally)?,
            };
        }
        Ok(tally)
    }

    /// The winding that is clipped.
    fn start(self, alloc: Global) -> Result<Option<Winding>, AllocError> {
        let Some(square) = Winding::on(alloc, &floor())? else {
            return Ok(None);
        };
        match self {
            Stream::Squares | Stream::Chains | Stream::Tree => Ok(Some(square)),
            Stream::Octagons => cut_by(square, &slants()),
            Stream::Misses => cut_by(square, &near_corner()),
        }
    }
}

/// Pushes the faces down the tree, so many times.
fn down_the_tree(alloc: Global, rounds: u32) -> Result<Tally, AllocError> {
    let tree = Tree::new(alloc)?;
    let mut tally = Tally::default();
    for _ in 0..rounds {
        tally = tree.push_down(alloc, tally)?;
    }
    Ok(tally)
}

/// Clips one winding by each plane, on both sides.
fn both_sides(winding: &Winding, planes: &[Plane], tally: Tally) -> Result<Tally, AllocError> {
    let mut tally = tally;
    for plane in planes {
        tally = tally.with(&winding.clip(plane, Side::Front)?);
        tally = tally.with(&winding.clip(plane, Side::Back)?);
    }
    Ok(tally)
}

/// Clips a winding by one plane after another, and begins anew where nothing is left.
fn chain(start: &Winding, planes: &[Plane], tally: Tally) -> Result<Tally, AllocError> {
    let mut tally = tally;
    let mut winding = start.copy()?;
    for plane in planes {
        let clip = winding.clip(plane, Side::Back)?;
        tally = tally.with(&clip);
        match clip {
            Clip::Whole => {}
            Clip::Gone => winding = start.copy()?,
            Clip::Cut(part) => winding = part,
        }
    }
    Ok(tally)
}

/// What planes leave of a winding behind them.
fn cut_by(winding: Winding, planes: &[Plane]) -> Result<Option<Winding>, AllocError> {
    let mut winding = winding;
    for plane in planes {
        match winding.clip(plane, Side::Back)? {
            Clip::Whole => {}
            Clip::Gone => return Ok(None),
            Clip::Cut(part) => winding = part,
        }
    }
    Ok(Some(winding))
}

/// The plane z = 0.
fn floor() -> Plane {
    through([0, 0, 0], [1, 0, 0], [0, 1, 0])
}

/// Four planes that cut the corners off the floor's square, which lies behind them.
fn slants() -> [Plane; 4] {
    [
        through([24000, 24000, 0], [24000, 24000, 1], [16000, 32000, 0]),
        through([24000, -24000, 0], [24000, -24000, 1], [16000, -32000, 0]),
        through([-24000, 24000, 0], [-24000, 24000, 1], [-16000, 32000, 0]).flipped(),
        through(
            [-24000, -24000, 0],
            [-24000, -24000, 1],
            [-16000, -32000, 0],
        )
        .flipped(),
    ]
}

/// Two planes behind which there is a small square of the floor's, at its corner.
fn near_corner() -> [Plane; 2] {
    [
        through([31744, 0, 0], [31744, 1, 0], [31744, 0, 1]).flipped(),
        through([0, 31744, 0], [1, 31744, 0], [0, 31744, 1]).flipped(),
    ]
}
