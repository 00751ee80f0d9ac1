//! The lines of a listing, read at a place. Each answers its value and where it ends.

ghost use Rattle.std.specs.Prelude.{◌≡◌};
ghost use Rattle.qm_formats.specs.Layout.{many};
ghost use Rattle.qm_listing.specs.Grammar.{count_line_layout, points_layout, leaf0_layout, leaf1_layout, coordinate_layout, corner_layout, portal_layout};
ghost use Rattle.qm_prt.specs.Answers.{IsFaultOfListing, AnswersListing};

use crate::places::{byte_at, coordinate_at, count_at};
use crate::prt_fault::PrtFault;
use qm_listing::{Coordinate, PrtPortal};
use qm_lists::Items;
use std::alloc::Global;

/// The fewest corners of a portal.
const FEWEST: u64 = 3;

/// A count on a line of its own.
#[tactic(auto, unfolding(qm_listing::specs::Grammar::count_line_layout))]
pub(crate) fn count_line_at(text: &[u8], at: usize) -> Result<(u64, usize), PrtFault>
    ensures { AnswersListing (λ read. read.0) (λ read. read.1) result (count_line_layout.read text.now at) }
{
    let (count, next) = count_at(text, at)?;
    let next = byte_at(text, next, b'\n')?;
    Ok((count, next))
}

/// How many corners a portal has.
#[tactic(auto, unfolding(qm_listing::specs::Grammar::points_layout))]
fn points_at(text: &[u8], at: usize) -> Result<(u64, usize), PrtFault>
    ensures { AnswersListing (λ read. read.0) (λ read. read.1) result (points_layout.read text.now at) }
{
    let (points, next) = count_at(text, at)?;
    if points < FEWEST {
        return Err(PrtFault::Shape { offset: at as u64 });
    }
    let next = byte_at(text, next, b' ')?;
    Ok((points, next))
}

/// The number of one of so many leaves.
#[tactic(auto, unfolding(qm_listing::specs::Grammar::leaf0_layout))]
fn leaf0_at(text: &[u8], at: usize, leaves: u64) -> Result<(u64, usize), PrtFault>
    ensures { AnswersListing (λ read. read.0) (λ read. read.1) result ((leaf0_layout leaves).read text.now at) }
{
    let (leaf, next) = count_at(text, at)?;
    if leaf >= leaves {
        return Err(PrtFault::Shape { offset: at as u64 });
    }
    let next = byte_at(text, next, b' ')?;
    Ok((leaf, next))
}

/// The number of another of so many leaves.
#[tactic(auto, unfolding(qm_listing::specs::Grammar::leaf1_layout))]
fn leaf1_at(text: &[u8], at: usize, leaves: u64, leaf0: u64) -> Result<(u64, usize), PrtFault>
    ensures { AnswersListing (λ read. read.0) (λ read. read.1) result ((leaf1_layout leaves leaf0).read text.now at) }
{
    let (leaf, next) = count_at(text, at)?;
    if leaf >= leaves || leaf == leaf0 {
        return Err(PrtFault::Shape { offset: at as u64 });
    }
    let next = byte_at(text, next, b' ')?;
    Ok((leaf, next))
}

/// A coordinate and the space behind it.
#[tactic(auto, unfolding(qm_listing::specs::Grammar::coordinate_layout))]
fn spaced_coordinate_at(text: &[u8], at: usize) -> Result<(Coordinate, usize), PrtFault>
    ensures { AnswersListing (λ read. read.0) (λ read. read.1) result (coordinate_layout.read text.now at) }
{
    let (coordinate, next) = coordinate_at(text, at)?;
    let next = byte_at(text, next, b' ')?;
    Ok((coordinate, next))
}

/// Three coordinates.
fn coordinates_at(text: &[u8], at: usize) -> Result<([Coordinate; 3], usize), PrtFault>
    ensures { AnswersListing (λ read. read.0) (λ read. read.1) result ((many coordinate_layout 3).read text.now at) }
{
    let (x, next) = spaced_coordinate_at(text, at)?;
    let (y, next) = spaced_coordinate_at(text, next)?;
    let (z, next) = spaced_coordinate_at(text, next)?;
    Ok(([x, y, z], next))
}

/// A corner: `(x y z ) `.
#[tactic(auto, unfolding(qm_listing::specs::Grammar::corner_layout))]
fn corner_at(text: &[u8], at: usize) -> Result<([Coordinate; 3], usize), PrtFault>
    ensures { AnswersListing (λ read. read.0) (λ read. read.1) result (corner_layout.read text.now at) }
{
    let next = byte_at(text, at, b'(')?;
    let (corner, next) = coordinates_at(text, next)?;
    let next = byte_at(text, next, b')')?;
    let next = byte_at(text, next, b' ')?;
    Ok((corner, next))
}

/// So many corners. No room is made before they are there.
fn corners_at(
    alloc: Global,
    text: &[u8],
    at: usize,
    points: u64,
) -> Result<(Vec<[Coordinate; 3]>, usize), PrtFault>
    ensures { AnswersListing (λ read. read.0.items) (λ read. read.1) result ((many corner_layout points).read text.now at) }
{
    let mut corners = Vec::new(alloc);
    let mut next = at;
    for _ in 0..points {
        let (corner, after) = corner_at(text, next)?;
        corners.push(corner)?;
        next = after;
    }
    Ok((corners, next))
}

/// The line of a portal between two of so many leaves.
#[tactic(auto, unfolding(qm_listing::specs::Grammar::portal_layout))]
fn portal_at(
    alloc: Global,
    text: &[u8],
    at: usize,
    leaves: u64,
) -> Result<(PrtPortal, usize), PrtFault>
    ensures { AnswersListing (λ read. read.0) (λ read. read.1) result ((portal_layout leaves).read text.now at) }
{
    let (points, next) = points_at(text, at)?;
    let (leaf0, next) = leaf0_at(text, next, leaves)?;
    let (leaf1, next) = leaf1_at(text, next, leaves, leaf0)?;
    let (corners, next) = corners_at(alloc, text, next, points)?;
    let next = byte_at(text, next, b'\n')?;
    let portal = PrtPortal {
        leaf0,
        leaf1,
        corners: Items::from_vec(corners),
    };
    Ok((portal, next))
}

/// The lines of so many portals. No room is made before they are there.
pub(crate) fn portals_at(
    alloc: Global,
    text: &[u8],
    at: usize,
    leaves: u64,
    count: u64,
) -> Result<(Vec<PrtPortal>, usize), PrtFault>
    ensures { AnswersListing (λ read. read.0.items) (λ read. read.1) result ((many (portal_layout leaves) count).read text.now at) }
{
    let mut portals = Vec::new(alloc);
    let mut next = at;
    for _ in 0..count {
        let (portal, after) = portal_at(alloc, text, next, leaves)?;
        portals.push(portal)?;
        next = after;
    }
    Ok((portals, next))
}
